//! What is asked of a shop before and after a call that fails.

use crate::shop_runs::script::Script;
use kb_gateway::Told;

/// An account with a charge that is paid, and one more.
pub(crate) const LINES: &str =
    r#"{"do":"open","account":"a1","key":"k1","currency":"USD","bcd":1,"today":"2024-03-01"}
{"do":"create","account":"a1","key":"k2","bundle":"b1","subscription":"s1","product":"Basic","period":"MONTHLY","day":"2024-03-01","today":"2024-03-01"}
{"do":"pay","account":"a1","key":"k3","payment":"p1","invoice":1,"today":"2024-03-01"}
{"do":"charge","account":"a1","key":"k4","amount":500,"today":"2024-03-01"}
"#;

/// What a whole run answers.
pub(crate) const ANSWERS: &str =
    r#"{"status":"ok","command":1,"invoice":null,"total":0,"credit":0,"unpaid":0}
{"status":"ok","command":2,"invoice":1,"total":1000,"credit":0,"unpaid":1000}
{"status":"ok","command":3,"invoice":null,"total":0,"credit":0,"unpaid":1000}
{"status":"ok","command":5,"invoice":2,"total":500,"credit":0,"unpaid":500}
"#;

/// A gateway that accepts one payment.
pub(crate) static ACCEPTS: Script = Script {
    told: &[Told::Processed],
    seen: &[],
    failing: &[],
};
