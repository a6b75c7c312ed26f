//! The text that is printed for a capture.
ghost use Rattle.std.specs.Prelude.{◌≡◌, IfOk, string_bytes};
ghost use Rattle.letters.specs.Report.{OneText, Reported};

use letter::Letter;
use std::alloc::{AllocError, Global};
use std::fmt::Write;

/// A line for each letter of the capture, a line for the first bytes that are no letter, and the count of letters.
pub fn report(heap: Global, capture: &[u8]) -> Result<String, AllocError>
    ensures { IfOk result (λ text. Reported capture.now (string_bytes text)) }
{
    let mut text = String::new(heap);
    let mut line = String::new(heap);
    let mut rest = capture;
    let mut count: usize = 0;
    // An iterator over the letters would be no plainer: the count and the rest are needed behind it.
    while !rest.is_empty() {
        match Letter::read(rest) {
            Ok((letter, behind)) => {
                // By whole lines: by the pieces of a line the text's memory would grow in other steps, some of them larger.
                line.clear();
                writeln!(line, "{letter}")?;
                text.push_str(line.as_str())?;
                count += 1;
                rest = behind;
            }
            Err(refusal) => {
                let offset = capture.len() - rest.len();
                writeln!(text, "{refusal} at {offset}")?;
                break;
            }
        }
    }
    writeln!(text, "{count} letters")?;
    Ok(text)
}

/// No capture has two texts.
pub fn one_text()
    ensures { OneText }
{}

#[cfg(test)]
mod tests {
    use super::report;
    use std::process::Abort;
    use std::test::Fail;

    fn prints(rt: &(impl Abort + AllocGlobal), capture: &[u8], text: &str) -> Result<(), Fail> {
        let made = report(rt.alloc(), capture)?;
        assert!(rt; made.as_str() == text);
        Ok(())
    }

    #[test]
    fn nothing(rt: HostRuntime) -> Result<(), Fail> {
        prints(&rt, &[], "0 letters\n")
    }

    #[test]
    fn letters_and_then_none(rt: HostRuntime) -> Result<(), Fail> {
        prints(
            &rt,
            &[1, 127, 2, 3, 4],
            "request 127\ndisclosure 3\nrefusal 41 at 4\n2 letters\n",
        )?;
        prints(
            &rt,
            &[1, 200, 1, 5, 0, 1, 1],
            "request 200\nrefusal 43 at 3\n1 letters\n",
        )?;
        prints(&rt, &[3, 128, 2], "refusal 44 at 0\n0 letters\n")?;
        prints(
            &rt,
            &[4, 255, 1, 3, 128, 0],
            "disclosure-ack 255\nrefusal 42 at 3\n1 letters\n",
        )
    }
}
