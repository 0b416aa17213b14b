// What a tick prints: the steps that it took, and its answer.
ghost use Rattle.std.specs.Prelude.{◌≡◌, ◌<◌, ◌≤◌, length};
ghost use Rattle.record.specs.Bytes.{most_records};
ghost use Rattle.line.specs.Line.{longest};
ghost use Rattle.ticks.specs.Lines.{steps_of, answer_line, Leads};

use run::kinds::Answer;

// The steps, and a space.
pub fn steps_digits(steps: u64) -> [u8; 5]
    requires { steps < 65536 }
    ensures { result ≡ steps_of steps }
{
    let n = steps as usize;
    [
        text::letter(n / 4096),
        text::letter(n / 256),
        text::letter(n / 16),
        text::letter(n),
        b' ',
    ]
}

// Puts the line of an answer first into `out`, and answers its length. `places` holds the obligations.
pub fn answer_line(answer: Answer, places: &[u16], out: &mut [u8]) -> usize
    requires { (length places.now ≤ most_records) × (longest ≤ length out.old) }
    ensures { Leads (answer_line answer places.now) out.old out.new result }
{
    match answer {
        Answer::Running => {
            out[..3].copy_from_slice(b"00\n");
            3
        }
        Answer::Finished(verdict, count) => line::decision_line(
            meaning::number(meaning::decision_in(verdict)),
            places,
            count as usize,
            out,
        ),
        Answer::Refused(refusal) => line::refusal_line(refusal, out),
    }
}
