//! The cases of the five rule lists.
ghost use Rattle.toml.specs.View.{table_view};
ghost use Rattle.kb_catalog_text.specs.Reads.{IsRead};
ghost use Rattle.kb_catalog_text.specs.CatalogEntries.{change_case_in, plan_case_in, change_policy_in};
ghost use Rattle.kb_catalog_text.specs.CatalogEntries.{change_alignment_in, cancel_in, create_in, billing_in};

use crate::condition::{from_conditions, plan_conditions, to_conditions};
use crate::entries::Entry;
use crate::from_value::{FromValue, optional, required};
use crate::key_fault::KeyFault;
use crate::keys::{Among, known_keys};
use kb_catalog::{
    BillingCase, CancelCase, ChangeAlignmentCase, ChangeCase, ChangePolicyCase, CreateCase,
    PlanCase,
};
use std::alloc::Global;
use toml::Table;

impl Entry for ChangePolicyCase {
    ghost says = { change_policy_in };

    fn entry(alloc: Global, table: &Table) -> Result<ChangePolicyCase, KeyFault> {
        read_change_case(alloc, table, "policy")
    }
}

impl Entry for ChangeAlignmentCase {
    ghost says = { change_alignment_in };

    fn entry(alloc: Global, table: &Table) -> Result<ChangeAlignmentCase, KeyFault> {
        read_change_case(alloc, table, "alignment")
    }
}

/// The case about a change that a table says, with its answer at a key.
fn read_change_case<T: FromValue>(
    alloc: Global,
    table: &Table,
    answer_key: &str,
) -> Result<ChangeCase<T>, KeyFault>
    ensures { IsRead result (change_case_in T.reads answer_key.now (table_view table.now)) }
{
    let keys = Among {
        keys: &[
            "from_product",
            "from_category",
            "from_period",
            "from_list",
            "phase",
            "to_product",
            "to_category",
            "to_period",
            "to_list",
            answer_key,
        ],
    };
    known_keys(alloc, table, &keys)?;
    let from = from_conditions(alloc, table)?;
    let phase = optional(alloc, table, "phase")?;
    let to = to_conditions(alloc, table)?;
    let answer = required(alloc, table, answer_key)?;
    Ok(ChangeCase {
        from,
        phase,
        to,
        answer,
    })
}

impl Entry for CancelCase {
    ghost says = { cancel_in };

    fn entry(alloc: Global, table: &Table) -> Result<CancelCase, KeyFault> {
        read_plan_case(alloc, table, "policy")
    }
}

impl Entry for BillingCase {
    ghost says = { billing_in };

    fn entry(alloc: Global, table: &Table) -> Result<BillingCase, KeyFault> {
        read_plan_case(alloc, table, "alignment")
    }
}

/// The case about a plan and its phase that a table says, with its answer at a key.
fn read_plan_case<T: FromValue>(
    alloc: Global,
    table: &Table,
    answer_key: &str,
) -> Result<PlanCase<T>, KeyFault>
    ensures { IsRead result (plan_case_in T.reads answer_key.now (table_view table.now)) }
{
    let keys = Among {
        keys: &["product", "category", "period", "list", "phase", answer_key],
    };
    known_keys(alloc, table, &keys)?;
    let plan = plan_conditions(alloc, table)?;
    let phase = optional(alloc, table, "phase")?;
    let answer = required(alloc, table, answer_key)?;
    Ok(PlanCase {
        plan,
        phase,
        answer,
    })
}

impl Entry for CreateCase {
    ghost says = { create_in };

    fn entry(alloc: Global, table: &Table) -> Result<CreateCase, KeyFault> {
        read_create(alloc, table)
    }
}

/// The case of a create alignment that a table says.
fn read_create(alloc: Global, table: &Table) -> Result<CreateCase, KeyFault>
    ensures { IsRead result (create_in (table_view table.now)) }
{
    let keys = Among {
        keys: &["product", "category", "period", "list", "alignment"],
    };
    known_keys(alloc, table, &keys)?;
    let plan = plan_conditions(alloc, table)?;
    let alignment = required(alloc, table, "alignment")?;
    Ok(CreateCase { plan, alignment })
}
