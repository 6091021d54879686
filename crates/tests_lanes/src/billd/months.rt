//! A shop's month with automatic payments and overdue states.

use crate::billd::rows::Row;
use crate::shop_runs::script::Script;
use kb_gateway::Told;

pub(crate) static MONTHS: [Row; 1] = [Row {
    name: "a_month_of_a_shop",
    overdue: "o",
    script: Script {
        told: &[
            Told::Error,
            Told::Processed,
            Told::Error,
            Told::Error,
            Told::Processed,
            Told::Processed,
            Told::Processed,
        ],
        seen: &[],
        failing: &[],
    },
    lines: r#"{"do":"open","account":"a1","key":"k1","currency":"USD","bcd":1,"autopay":true,"today":"2024-03-01"}
{"do":"create","account":"a1","key":"k2","bundle":"b1","subscription":"s1","product":"Starter","period":"MONTHLY","day":"2024-03-01","today":"2024-03-01"}
{"do":"create","account":"a1","key":"k3","bundle":"b1","subscription":"s2","product":"Support","period":"MONTHLY","day":"2024-03-01","today":"2024-03-01"}
{"do":"create","account":"a1","key":"k4","bundle":"b2","subscription":"s3","product":"Basic","period":"ANNUAL","day":"2024-03-01","today":"2024-03-01"}
{"do":"bill","account":"a1","key":"k5","day":"2024-03-08","today":"2024-03-08"}
{"do":"bill","account":"a1","key":"k6","day":"2024-03-15","today":"2024-03-15"}
{"do":"create","account":"a1","key":"k7","bundle":"b3","subscription":"s4","product":"Basic","period":"MONTHLY","day":"2024-03-15","today":"2024-03-15"}
{"do":"pay","account":"a1","key":"k8","payment":"p1","invoice":2,"today":"2024-03-16"}
{"do":"bill","account":"a1","key":"k9","day":"2024-03-31","today":"2024-03-31"}
{"do":"bill","account":"a1","key":"k10","day":"2024-04-01","today":"2024-04-01"}
{"do":"account","account":"a1","today":"2024-04-01"}"#,
}];
