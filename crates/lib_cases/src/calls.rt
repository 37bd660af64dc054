//! The calls that a case may make.

use crate::components::from_case;
use crate::graphs::order_case;
use crate::intervals::{interval_case, operator_case};
use crate::naming::name_case;
use crate::programs::{checked_case, program_case};
use crate::sources::source_case;
use crate::stores::{int_case, sure_case};
use case_text::{Fault, Fields};

/// Makes the call that a case names by its first word, and prints what it answers.
pub fn answer(call: &str, fields: &Fields<'_>, page: &mut String) -> Result<(), Fault> {
    match call {
        "components" | "kinds" | "numbers" | "parameters" | "rules" | "value" => {
            source_case(call, fields, page)
        }
        "from" => from_case(fields, page),
        "interval" => interval_case(fields, page),
        "read" | "print" | "copy" => program_case(call, fields, page),
        "check" | "scan" | "rows" | "table" => checked_case(call, fields, page),
        "name" => name_case(fields, page),
        "operator" => operator_case(fields, page),
        "order" => order_case(fields, page),
        "int" => int_case(fields, page),
        "sure" => sure_case(fields, page),
        _ => Err(Fault::Form("no such call")),
    }
}
