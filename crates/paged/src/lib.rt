// For tests: a text judged through a reader, line by line, by a function with plain parameters that is exported beside the calls for C; so
// the reader's own calls are tried as compiled code. It promises what `oes_judge_text` does.
#![tactic(auto)]

ghost use Rattle.std.specs.Prelude.{◌≡◌, ◌≤◌, length};
ghost use Rattle.rule.specs.Lists.{placed};
ghost use Rattle.concordance.specs.Text.{lines_of};
ghost use Rattle.concordance.specs.Verdicts.{verdicts_of};
ghost use Rattle.offered.specs.Promises.{CJudgeText};
ghost use Rattle.paged.specs.Paged.{said_number};

use concordance::Verdict;
use offered::CLength;
use rule::Reason;

// What a step says, as a number.
// (No `From`: a Result is not of this crate.)
fn said_number(step: Result<Option<Verdict>, Reason>) -> u8
    ensures { result ≡ said_number step }
{
    match step {
        Ok(Some(verdict)) => concordance::verdict_number(verdict),
        Ok(None) => 8,
        Err(_) => 9,
    }
}

// The verdicts on a text's n lines, through a reader.
fn read_through(text: &[u8], out: &mut [u8], n: usize)
    requires { (length text.now ≤ 65536) × (n ≡ length (lines_of text.now)) × (n ≤ length out.old) }
    ensures { out.new ≡ placed (verdicts_of text.now) out.old }
{
    let mut r = reader::start(text);
    for i in 0..n {
        out[i] = said_number(reader::next_line(&mut r));
    }
}

// The verdicts on a text's lines.
#[unsafe(no_mangle)]
pub extern "C" fn oes_paged(text: &[u8], out: &mut [u8]) -> CLength
    ensures { CJudgeText text.now out.old result out.new }
{
    if 65536 < text.len() {
        return CLength {
            reason: 18,
            length: 0,
        };
    }
    let n = concordance::count_lines(text);
    if out.len() < n {
        return CLength {
            reason: 12,
            length: 0,
        };
    }
    read_through(text, out, n);
    CLength {
        reason: 0,
        length: n,
    }
}
