//! The calls that a case may make.

use crate::commands::tool_case;
use crate::nets::{emit_case, load_case, net_case};
use crate::runs::sim_case;
use crate::scopes::{find_case, scopes_case};
use crate::sources::source_case;
use crate::tokens::front_case;
use case_text::{Fault, Fields};
use std::thread::Threads;

/// Makes the call that a case names by its first word, and prints what it answers.
pub fn answer<R: Threads + Sync>(
    rt: &R,
    call: &str,
    fields: &Fields<'_>,
    page: &mut String,
) -> Result<(), Fault> {
    match call {
        "tool" => tool_case(rt, fields, page),
        "load" => load_case(fields, page),
        "emit" => emit_case(fields, page),
        "sim" => sim_case(fields, page),
        "inline" | "widths" => net_case(call, fields, page),
        "scopes" | "resolve" => scopes_case(call, fields, page),
        "find" => find_case(fields, page),
        "items" | "automaton" | "location" | "edge" | "choice" => source_case(call, fields, page),
        "lex" | "expr" | "declaration" | "types" | "events" | "component" | "parameters" => {
            front_case(call, fields, page)
        }
        _ => Err(Fault::Form("no such call")),
    }
}
