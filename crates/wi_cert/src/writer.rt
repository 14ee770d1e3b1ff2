//! A certificate is written part by part at the end of one text, so each contract speaks of what its call adds, and says besides
//! that the numbers have the ranges of their types: who makes a certificate needn't show that. The decimal of a number takes
//! memory until it is added.
ghost use Rattle.std.specs.Prelude.{◌≡◌, ◌^◌, ◌<◌, ◌≤◌, ◌++◌, ◌∷◌, [], IfOk, IsErrOf, OnOk, length, map, codes};
ghost use Rattle.std.specs.Fmt.{decimal};
ghost use Rattle.std.specs.List.{All, flat_map};
ghost use Rattle.wi_weight.specs.Weights.{EachBelow};
ghost use Rattle.wi_cert.specs.Numbers.{spaced, printed, count_line};
ghost use Rattle.wi_cert.specs.Shown.{IsShown, answer_line, weight_line, first_line, pair_line, dropped_lines, title_line, shown_lines, HasDroppedRanges, HasShownRanges};
ghost use Rattle.wi_cert.specs.Closed.{row_line, closed_lines, HasRowRanges, HasClosedRanges};
ghost use Rattle.wi_cert.specs.Text.{ended, closed_text, IsWritable, IsText};
ghost use Rattle.wi_cert.specs.private.Fronts.{front_text};

use crate::certificate::Certificate;
use crate::closed::Closed;
use crate::encode_refused::EncodeRefused;
use crate::row::Row;
use crate::shown::{Claim, Dropped, Shown};
use std::alloc::Global;
use wi_base::{NoMemory, write_decimal};

/// The text of a certificate.
pub fn encode(alloc: Global, certificate: &Certificate) -> Result<Vec<u8>, NoMemory>
    requires { IsWritable certificate.now }
    ensures { IfOk result (λ bytes. IsText certificate.now bytes.items) }
{
    let mut out = encode_front(alloc, certificate)?;
    put_rest(&mut out, certificate)?;
    Ok(out)
}

/// The text of a certificate, unless its lines from `heads` on have more bytes than the limit.
pub fn encode_within(
    alloc: Global,
    certificate: &Certificate,
    limit: usize,
) -> Result<Vec<u8>, EncodeRefused>
    requires { IsWritable certificate.now }
    ensures text { IfOk result (λ bytes. IsText certificate.now bytes.items) }
    ensures short { IfOk result (λ _. length (closed_text certificate.now) ≤ limit) }
    ensures long { IsErrOf result EncodeRefused.TooLong → limit < length (closed_text certificate.now) }
{
    let mut out = encode_front(alloc, certificate)?;
    let front = out.len();
    put_rest(&mut out, certificate)?;
    if out.len() - front > limit {
        return Err(EncodeRefused::TooLong);
    }
    Ok(out)
}

// The lines of a certificate's text before `heads`, which show the answer.
fn encode_front(alloc: Global, certificate: &Certificate) -> Result<Vec<u8>, NoMemory>
    requires { IsShown certificate.now.shown }
    ensures text { IfOk result (λ bytes. bytes.items ≡ front_text certificate.now) }
    ensures ranges { IfOk result (λ _. HasShownRanges certificate.now.shown) }
{
    let mut out = Vec::new(alloc);
    put_title(
        &mut out,
        b"mpls-whatif-certificate ",
        certificate.shown.dropped,
    )?;
    put_shown(&mut out, &certificate.shown)?;
    Ok(out)
}

// Writes the lines from `heads` on.
fn put_rest(out: &mut Vec<u8>, certificate: &Certificate) -> Result<(), NoMemory>
    ensures text { OnOk result (out.new.items ≡ out.old.items ++ closed_text certificate.now) }
    ensures ranges { OnOk result (HasClosedRanges certificate.now.closed) }
{
    put_closed(out, &certificate.closed)?;
    put(out, b"end\n")
}

// Writes the bytes at the end.
pub(crate) fn put(out: &mut Vec<u8>, bytes: &[u8]) -> Result<(), NoMemory>
    ensures { OnOk result (out.new.items ≡ out.old.items ++ bytes.now) }
{
    out.extend_from_slice(bytes)?;
    Ok(())
}

// Writes the number at the end.
fn put_number(out: &mut Vec<u8>, number: u64) -> Result<(), NoMemory>
    ensures { OnOk result (out.new.items ≡ out.old.items ++ decimal number) }
{
    write_decimal(u128::from(number), out)
}

// Writes the first line, which begins with the front and ends with the version.
pub(crate) fn put_title(
    out: &mut Vec<u8>,
    front: &[u8],
    dropped: Option<Dropped>,
) -> Result<(), NoMemory>
    ensures { OnOk result (out.new.items ≡ out.old.items ++ ended (title_line front.now dropped)) }
{
    put(out, front)?;
    match dropped {
        None => put(out, b"1\n"),
        Some(_) => put(out, b"2\n"),
    }
}

// Writes the numbers at the end, a space before each.
fn put_spaced(out: &mut Vec<u8>, numbers: &[u64]) -> Result<(), NoMemory>
    ensures text { OnOk result (out.new.items ≡ out.old.items ++ spaced numbers.now) }
    ensures ranges { OnOk result (EachBelow (2 ^ 64) numbers.now) }
{
    for number in numbers {
        put(out, b" ")?;
        put_number(out, *number)?;
    }
    Ok(())
}

// Writes the short numbers at the end, a space before each.
fn put_spaced_short(out: &mut Vec<u8>, numbers: &[u32]) -> Result<(), NoMemory>
    ensures text { OnOk result (out.new.items ≡ out.old.items ++ spaced numbers.now) }
    ensures ranges { OnOk result (EachBelow (2 ^ 32) numbers.now) }
{
    for number in numbers {
        put(out, b" ")?;
        put_number(out, u64::from(*number))?;
    }
    Ok(())
}

// Writes the line of a number after its front.
pub(crate) fn put_count(out: &mut Vec<u8>, front: &[u8], number: u64) -> Result<(), NoMemory>
    ensures { OnOk result (out.new.items ≡ out.old.items ++ ended (count_line front.now number)) }
{
    put(out, front)?;
    put_number(out, number)?;
    put(out, b"\n")
}

// Writes the line of two numbers.
fn put_two(out: &mut Vec<u8>, first: u64, second: u64) -> Result<(), NoMemory>
    ensures { OnOk result (out.new.items ≡ out.old.items ++ ended (pair_line (first, second))) }
{
    put_number(out, first)?;
    put(out, b" ")?;
    put_number(out, second)?;
    put(out, b"\n")
}

// Writes the line of a step, or of a pair of symbols.
fn put_pair(out: &mut Vec<u8>, pair: (u32, u32)) -> Result<(), NoMemory>
    ensures text { OnOk result (out.new.items ≡ out.old.items ++ ended (pair_line pair)) }
    ensures ranges { (pair.0 < 2 ^ 32) × (pair.1 < 2 ^ 32) }
{
    put_two(out, u64::from(pair.0), u64::from(pair.1))
}

// Writes the line of a head.
fn put_head(out: &mut Vec<u8>, head: (u64, u32)) -> Result<(), NoMemory>
    ensures text { OnOk result (out.new.items ≡ out.old.items ++ ended (pair_line head)) }
    ensures ranges { (head.0 < 2 ^ 64) × (head.1 < 2 ^ 32) }
{
    put_two(out, head.0, u64::from(head.1))
}

// Writes the lines of steps, or of pairs of symbols.
fn put_pairs(out: &mut Vec<u8>, pairs: &[(u32, u32)]) -> Result<(), NoMemory>
    ensures text { OnOk result (out.new.items ≡ out.old.items ++ flat_map ended (map pair_line pairs.now)) }
    ensures ranges { OnOk result (All (λ x. (x.0 < 2 ^ 32) × (x.1 < 2 ^ 32)) pairs.now) }
{
    for pair in pairs {
        put_pair(out, *pair)?;
    }
    Ok(())
}

// Writes the lines of the heads.
fn put_heads(out: &mut Vec<u8>, heads: &[(u64, u32)]) -> Result<(), NoMemory>
    ensures text { OnOk result (out.new.items ≡ out.old.items ++ flat_map ended (map pair_line heads.now)) }
    ensures ranges { OnOk result (All (λ x. (x.0 < 2 ^ 64) × (x.1 < 2 ^ 32)) heads.now) }
{
    for head in heads {
        put_head(out, *head)?;
    }
    Ok(())
}

// Writes the line of a row.
fn put_row(out: &mut Vec<u8>, row: &Row) -> Result<(), NoMemory>
    ensures text { OnOk result (out.new.items ≡ out.old.items ++ ended (row_line row.now)) }
    ensures ranges { OnOk result (HasRowRanges row.now) }
{
    put_number(out, row.p)?;
    put(out, b" ")?;
    put_number(out, u64::from(row.g))?;
    put(out, b" ")?;
    put_number(out, row.q)?;
    put_spaced(out, row.weight.as_slice())?;
    put(out, b"\n")
}

// Writes the lines of the rows.
fn put_rows(out: &mut Vec<u8>, rows: &[Row]) -> Result<(), NoMemory>
    ensures text { OnOk result (out.new.items ≡ out.old.items ++ flat_map ended (map row_line rows.now)) }
    ensures ranges { OnOk result (All HasRowRanges rows.now) }
{
    for row in rows {
        put_row(out, row)?;
    }
    Ok(())
}

fn put_answer(out: &mut Vec<u8>, claim: Claim) -> Result<(), NoMemory>
    ensures { OnOk result (out.new.items ≡ out.old.items ++ ended (answer_line claim)) }
{
    match claim {
        Claim::Yes => put(out, b"answer yes\n"),
        Claim::No => put(out, b"answer no\n"),
        Claim::Inconclusive => put(out, b"answer inconclusive\n"),
    }
}

// Writes the line of the weight.
fn put_weight(out: &mut Vec<u8>, shown: &Shown) -> Result<(), NoMemory>
    requires { IsShown shown.now }
    ensures text { OnOk result (out.new.items ≡ out.old.items ++ ended (weight_line shown.now)) }
    ensures ranges { OnOk result (EachBelow (2 ^ 64) shown.now.weight) }
{
    if shown.claim.is_no() {
        return put(out, b"weight none\n");
    }
    put(out, b"weight")?;
    put_spaced(out, shown.weight.as_slice())?;
    put(out, b"\n")
}

// Writes the line of the first link and its labels.
fn put_first(out: &mut Vec<u8>, shown: &Shown) -> Result<(), NoMemory>
    requires { IsShown shown.now }
    ensures text { OnOk result (out.new.items ≡ out.old.items ++ ended (first_line shown.now)) }
    ensures ranges { OnOk result (EachBelow (2 ^ 32) shown.now.first) }
{
    if shown.claim.is_no() {
        return put(out, b"first none\n");
    }
    put(out, b"first")?;
    put_spaced_short(out, shown.first.as_slice())?;
    put(out, b"\n")
}

// Writes the line that says how the packet is dropped, in a text of version 2.
fn put_dropped(out: &mut Vec<u8>, dropped: Option<Dropped>) -> Result<(), NoMemory>
    ensures text { OnOk result (out.new.items ≡ out.old.items ++ flat_map ended (dropped_lines dropped)) }
    ensures ranges { OnOk result (HasDroppedRanges dropped) }
{
    match dropped {
        None => Ok(()),
        Some(Dropped::Nowhere) => put(out, b"drop none\n"),
        Some(Dropped::Inactive) => put(out, b"drop inactive\n"),
        Some(Dropped::Undefined(group, member)) => {
            put(out, b"drop ")?;
            put_pair(out, (group, member))
        }
    }
}

// Writes the lines that show the answer.
pub(crate) fn put_shown(out: &mut Vec<u8>, shown: &Shown) -> Result<(), NoMemory>
    requires { IsShown shown.now }
    ensures text { OnOk result (out.new.items ≡ out.old.items ++ flat_map ended (shown_lines shown.now)) }
    ensures ranges { OnOk result (HasShownRanges shown.now) }
{
    put_count(out, b"terms ", u64::from(shown.terms))?;
    put_answer(out, shown.claim)?;
    put_weight(out, shown)?;
    put_first(out, shown)?;
    let steps = shown.steps.as_slice();
    put_count(out, b"steps ", steps.len() as u64)?;
    put_pairs(out, steps)?;
    put_dropped(out, shown.dropped)
}

// Writes the lines that bound every run.
pub(crate) fn put_closed(out: &mut Vec<u8>, closed: &Closed) -> Result<(), NoMemory>
    ensures text { OnOk result (out.new.items ≡ out.old.items ++ flat_map ended (closed_lines closed.now)) }
    ensures ranges { OnOk result (HasClosedRanges closed.now) }
{
    let heads = closed.heads.as_slice();
    put_count(out, b"heads ", heads.len() as u64)?;
    put_heads(out, heads)?;
    let pairs = closed.pairs.as_slice();
    put_count(out, b"pairs ", pairs.len() as u64)?;
    put_pairs(out, pairs)?;
    let rows = closed.rows.as_slice();
    put_count(out, b"rows ", rows.len() as u64)?;
    put_rows(out, rows)
}
