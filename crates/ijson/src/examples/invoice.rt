//! The total of an invoice: sums the amounts of the lines in an array.
ghost use Rattle.std.specs.Prelude.{◌≡◌, ◌≢◌, ℕ, ℤ, Err, FitsSigned, IfNone, IfOk, IfSome};
ghost use Rattle.std.specs.Int.{w64};
ghost use Rattle.ijson.specs.examples.Invoice.{HasAmount, IsPastTotal, IsTotal, LacksAmount};
ghost use Rattle.ijson_value.specs.Kind.{kind_of};
ghost use Rattle.ijson_value.specs.declared.value.ValueType.TheVariants.{Array};

use super::parsed;
use crate::IValue;

/// The reason why an invoice does not have a total.
#[derive(Clone, Copy, Debug, Drop, PartialEq, Eq)]
enum TotalError {
    /// The value is not an array.
    NoArray,
    /// The line at this index lacks an amount, or its amount is not an integer in the range of
    /// `i64`.
    NoAmount(usize),
    /// A running sum of the amounts overflows `i64`, even if the total would fit.
    TooLarge,
}

/// Returns the amount of an invoice line, or `None` if the line lacks an amount that fits `i64`.
fn amount_of(line: &IValue) -> Option<i64>
    ensures some { IfSome result (λ z. HasAmount line.now.tree z) }
    ensures none { IfNone result ((z : ℤ) → FitsSigned w64 z → HasAmount line.now.tree z → ⊥) }
{
    if !line.is_object() {
        return None;
    }
    line.get("amount")?.to_i64()
}

/// Returns the sum of the amounts of the invoice lines in the array `records`.
fn invoice_total(records: &IValue) -> Result<i64, TotalError>
    ensures total { IfOk result (λ sum. IsTotal records.now.tree sum) }
    ensures no_array { result ≡ Err TotalError.NoArray → kind_of records.now.tree ≢ Array }
    ensures no_amount { (i : ℕ) → result ≡ Err (TotalError.NoAmount i) → LacksAmount records.now.tree i }
    ensures too_large { result ≡ Err TotalError.TooLarge → IsPastTotal records.now.tree }
{
    let Some(items) = records.as_array() else {
        return Err(TotalError::NoArray);
    };
    let mut sum: i64 = 0;
    for (i, item) in items.as_slice().iter().enumerate() {
        let Some(amount) = amount_of(item) else {
            return Err(TotalError::NoAmount(i));
        };
        let Some(more) = sum.checked_add(amount) else {
            return Err(TotalError::TooLarge);
        };
        sum = more;
    }
    Ok(sum)
}

/// JSON texts of invoices, and the total or error of each.
static INVOICES: [(&str, Result<i64, TotalError>); 11] = [
    (
        "[{\"amount\":3},{\"amount\":-1,\"note\":\"back\"},{\"amount\":4.0}]",
        Ok(6),
    ),
    ("[]", Ok(0)),
    ("{}", Err(TotalError::NoArray)),
    ("7", Err(TotalError::NoArray)),
    (
        "[{\"amount\":1},{\"amount\":0.5}]",
        Err(TotalError::NoAmount(1)),
    ),
    ("[{\"sum\":1}]", Err(TotalError::NoAmount(0))),
    ("[{\"amount\":1},7]", Err(TotalError::NoAmount(1))),
    (
        "[{\"amount\":9223372036854775808}]",
        Err(TotalError::NoAmount(0)),
    ),
    (
        "[{\"amount\":9223372036854775807},{\"amount\":1}]",
        Err(TotalError::TooLarge),
    ),
    (
        "[{\"amount\":9223372036854775807},{\"amount\":1},{\"amount\":-1}]",
        Err(TotalError::TooLarge),
    ),
    (
        "[{\"amount\":-9223372036854775808},{\"amount\":-1}]",
        Err(TotalError::TooLarge),
    ),
];

#[test]
fn invoices(rt: HostRuntime) {
    for &(text, want) in &INVOICES {
        let value = parsed(&rt, rt.alloc(), text);
        assert!(rt; invoice_total(&value) == want, "{text}");
        drop(value);
    }
}
