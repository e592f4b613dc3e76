//! Texts without the blanks at their ends.

ghost use Rattle.std.specs.Prelude.{◌≡◌};
ghost use Rattle.report_text.specs.Report.{is_ascii_white_space, trimmed, without_blanks_after, without_blanks_before};

/// The bytes without the blanks at both ends, as Python's `bytes.strip` leaves them: tab, line feed, vertical
/// tab, form feed, carriage return and space.
pub(crate) fn trimmed(bytes: &[u8]) -> &[u8]
    ensures { result.now ≡ trimmed bytes.now }
{
    without_blanks_after(without_blanks_before(bytes))
}

fn without_blanks_before(bytes: &[u8]) -> &[u8]
    ensures { result.now ≡ without_blanks_before bytes.now }
{
    let mut rest = bytes;
    while let [first, others @ ..] = rest {
        if !is_blank(*first) {
            break;
        }
        rest = others;
    }
    rest
}

#[tactic(auto, using(crate::proofs::TrimLemmas::last_is_blank, crate::proofs::TrimLemmas::last_is_text))]
fn without_blanks_after(bytes: &[u8]) -> &[u8]
    ensures { result.now ≡ without_blanks_after bytes.now }
{
    let mut rest = bytes;
    while let [others @ .., last] = rest {
        if !is_blank(*last) {
            break;
        }
        rest = others;
    }
    rest
}

fn is_blank(byte: u8) -> bool
    ensures { result ≡ is_ascii_white_space byte }
{
    matches!(byte, 9..=13 | b' ')
}
