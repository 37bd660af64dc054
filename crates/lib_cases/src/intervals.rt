//! Cases of intervals: what operators make of them, and those of expressions, with sizes and depths.

use crate::expressions::expression_of;
use case_text::{Fault, Fields, Put};
use cif_alg_measure::{Ranges, expr_measure, interval};
use cif_base::{Items, Iv};

fn put_interval(page: &mut String, range: Iv) -> Put {
    write!(page, "  {} to {}", range.lo(), range.hi())
}

/// The intervals between the numbers of a field, two for each.
fn intervals_of(fields: &Fields<'_>, field: &str) -> Result<Items<Iv>, Fault> {
    let numbers = fields.wholes(field)?;
    let mut all = Items::new(fields.alloc);
    for pair in numbers.as_slice().chunks(2) {
        let [lo, hi] = pair else {
            return Err(Fault::Form("a lower bound without an upper one"));
        };
        match Iv::try_new(*lo, *hi) {
            Some(range) => all.push(range)?,
            None => return Err(Fault::Form("no number is between the bounds")),
        }
    }
    Ok(all)
}

/// `interval NUMBERS | EXPR`: the interval, the size and the depth of an expression.
pub fn interval_case(fields: &Fields<'_>, page: &mut String) -> Result<(), Fault> {
    let alloc = fields.alloc;
    let all = intervals_of(fields, fields.written(0))?;
    let Some((received, vars)) = all.as_slice().split_first() else {
        return Err(Fault::Form("the range of what is received is missing"));
    };
    let text = fields.bytes_of(fields.written(1))?;
    let expression = expression_of(alloc, text.as_slice())?;
    let ranges = Ranges {
        vars,
        inputs: &[],
        algs: &[],
        received: *received,
    };
    match interval(&ranges, expression.get()) {
        Ok(range) => put_interval(page, range)?,
        Err(error) => write!(page, "  {error:?}")?,
    }
    let measure = expr_measure(&[], expression.get());
    Ok(writeln!(page, ", {measure:?}")?)
}

/// What an operator makes of one interval or of two.
fn put_computed(page: &mut String, operator: &str, a: Iv, b: Iv) -> Result<(), Fault> {
    let found = match operator {
        "add" => a.add(b),
        "sub" => a.sub(b),
        "mul" => a.mul(b),
        "div" => a.div(b),
        "rem" => a.rem(b),
        "min" => a.min(b),
        "max" => a.max(b),
        "join" => a.join(b),
        "neg" => a.neg(),
        "abs" => a.abs(),
        _ => return Err(Fault::Form("no such operator")),
    };
    match found {
        Some(range) => put_interval(page, range)?,
        None => page.push_str("  none")?,
    }
    Ok(page.push('\n')?)
}

/// `operator OPERATOR | LO HI [LO HI]`: the interval that an operator makes of one interval or of two.
pub fn operator_case(fields: &Fields<'_>, page: &mut String) -> Result<(), Fault> {
    let all = intervals_of(fields, fields.written(1))?;
    match all.as_slice() {
        [a] => put_computed(page, fields.written(0), *a, *a),
        [a, b] => put_computed(page, fields.written(0), *a, *b),
        _ => Err(Fault::Form("neither one interval nor two")),
    }
}
