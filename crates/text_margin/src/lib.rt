// The line that the margin program prints of its input.

#![tactic(auto)]

ghost use Rattle.std.specs.Prelude.{◌+◌, ◌≤◌, length};
ghost use Rattle.text_fields.specs.Buffer.{Put, AtFront};
ghost use Rattle.text_lines.specs.Text.{line_room};
ghost use Rattle.text_margin_rules.specs.Margin.{margin_text};
ghost use Rattle.text_margin.specs.Answered.{given_line, answer_line};

use base::wide;
use call_compare::compare::CompareAnswer;
use text_fields::Text;

// The number of an input that is too short.
const TOO_SHORT: u8 = 1;

// Writes the line of a margin, or of none.
fn given_line(text: &mut Text, margin: Option<i64>)
    requires { text.old.end + line_room ≤ length text.old.out.now }
    ensures { Put line_room text.old (given_line margin) text.new }
{
    match margin {
        None => text_lines::none_line(text),
        Some(difference) => text_lines::margin_line(text, difference),
    }
}

// Writes the line of what a comparison says.
fn answer_line(text: &mut Text, answer: CompareAnswer)
    requires { text.old.end + line_room ≤ length text.old.out.now }
    ensures { Put line_room text.old (answer_line answer) text.new }
{
    match answer {
        CompareAnswer::Refused(number) => text_lines::refused_line(text, number),
        CompareAnswer::Compared(_, margin) => given_line(text, margin),
    }
}

// Writes the whole text of an input to the front of a buffer, and returns the text's length. The input's first three bytes are the
// router, the first and the second, and the plan is the rest. A margin is the same whoever told the routes: each is compared as told by
// its own egress router.
pub fn margin_text(input: &[u8], out: &mut [u8]) -> usize
    requires { line_room ≤ length out.old }
    ensures { AtFront out.old (margin_text input.now) out.new result }
{
    let mut text = Text::new(out);
    if input.len() < 3 {
        text_lines::refused_line(&mut text, TOO_SHORT);
        return text.end;
    }
    let router = wide(input[0]);
    let first = wide(input[1]);
    let second = wide(input[2]);
    let answer = call_compare::compare::compare(&input[3..], router, first, second, true, true);
    answer_line(&mut text, answer);
    text.end
}
