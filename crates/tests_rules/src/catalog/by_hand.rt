//! A version that no text can say, since TOML names each key of a table once: a price twice in one currency.

use crate::compare::same;
use kb_base::Seq;
use kb_catalog::{Category, Phase, PhaseType, Plan, Price, Product, Rules, Version};
use kb_days::{Day, Name, Period, Span};
use kb_money::{Currency, Minor};
use kb_samples::SampleFault;
use std::alloc::Global;

#[test]
fn a_currency_twice(rt: HostRuntime) -> Result<(), SampleFault> {
    let version = priced_twice(rt.alloc())?;
    assert!(rt; version.has_counts());
    let fault = version
        .check()
        .err()
        .map(|fault| (fault.rule.number(), fault.index));
    same(&rt, &fault, &Some((10, 0)), &"a currency twice");
    Ok(())
}

/// A version of one product and one plan, without a list and without a case.
fn priced_twice(alloc: Global) -> Result<Version, SampleFault> {
    let (usd, basic) = (
        Currency::new(b"USD").ok_or(SampleFault::Word)?,
        Name::new(b"Basic").ok_or(SampleFault::Word)?,
    );
    let phases = Seq::from_vec(vec![in alloc; phase(alloc, usd)?]?);
    Ok(Version {
        effective: Day::new(kb_days::FIRST_DAY).ok_or(SampleFault::Word)?,
        currencies: Seq::from_vec(vec![in alloc; usd]?),
        products: Seq::from_vec(vec![in alloc; product(alloc, basic)]?),
        plans: Seq::from_vec(vec![in alloc;
            Plan {
                name: basic,
                product: basic,
                phases
            },
        ]?),
        lists: Seq::new(alloc),
        rules: no_cases(alloc),
    })
}

fn product(alloc: Global, name: Name) -> Product {
    Product {
        name,
        category: Category::Base,
        available: Seq::new(alloc),
        included: Seq::new(alloc),
    }
}

/// A phase without end, at 1 and at 2 a month.
fn phase(alloc: Global, currency: Currency) -> Result<Phase, SampleFault> {
    let mut recurring = Seq::new(alloc);
    for units in [1, 2] {
        recurring.push(Price {
            currency,
            amount: Minor::new(units).ok_or(SampleFault::Word)?,
        })?;
    }
    Ok(Phase {
        kind: PhaseType::Evergreen,
        span: Span::Unlimited,
        fixed: Seq::new(alloc),
        period: Period::Monthly,
        recurring,
    })
}

fn no_cases(alloc: Global) -> Rules {
    Rules {
        change_policy: Seq::new(alloc),
        change_alignment: Seq::new(alloc),
        cancel_policy: Seq::new(alloc),
        create_alignment: Seq::new(alloc),
        billing_alignment: Seq::new(alloc),
    }
}
