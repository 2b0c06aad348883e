// The lines of a listing. Each ends in one line feed.
ghost use Rattle.std.specs.Prelude.{◌≡◌, [], ◌∷◌, ◌++◌, ◌≤◌, length};
ghost use Rattle.annex10.specs.Length.{message_bytes};
ghost use Rattle.search.specs.Short.{of_short};
ghost use Rattle.listing.specs.Fields.{decimal};
ghost use Rattle.listing.specs.Lines.{line, text_of, head_line, refused_line, none_line, found_line, message_line, window_lines};
ghost use Rattle.listing.specs.Inner.{puts, answer_of};

use crate::{Entry, Text};
use search::{Answer, ShortAnswer};

// A word and a number.
fn word_line(word: &[u8], number: u64) -> Text
    requires { length word.now ≤ 7 }
    ensures { result ≡ text_of (line (word.now ∷ decimal number ∷ [])) }
{
    let mut line = Text::EMPTY;
    line.put_all(word);
    line.put(b' ');
    line.put_decimal(number);
    line.put(b'\n');
    line
}

// `windows` and how many.
#[tactic(auto, unfolding(crate::specs::Lines::head_line))]
pub fn head_line(windows: u64) -> Text
    ensures { result ≡ text_of (head_line windows) }
{
    word_line(b"windows", windows)
}

// `refused` and the number.
#[tactic(auto, unfolding(crate::specs::Lines::refused_line))]
pub fn refused_line(number: u64) -> Text
    ensures { result ≡ text_of (refused_line number) }
{
    word_line(b"refused", number)
}

fn none_line(window: u64) -> Text
    ensures { result ≡ text_of (none_line window) }
{
    let mut line = Text::EMPTY;
    line.put_decimal(window);
    line.put_all(b" none\n");
    line
}

impl Text {
    // One line more: that of a message.
    fn put_found(&mut self, window: u64, entry: &Entry)
        ensures { let l = found_line window (answer_of entry.now) in
            (self.new ≡ puts self.old l) × (length l ≤ 126) }
    {
        self.put_decimal(window);
        self.put(b' ');
        self.put_decimal(entry.index);
        self.put(b' ');
        self.put_float(entry.fraction);
        self.put(b' ');
        self.put_avr(entry.message);
        self.put(b' ');
        self.put_address(entry.message);
        self.put(b' ');
        self.put_repairs(entry.location.repairs);
        self.put(b' ');
        self.put_slicer(entry.location.slicer);
        self.put(b' ');
        self.put_float(entry.cn0);
        self.put(b' ');
        self.put_decimal(u64::from(entry.undecided));
        self.put(b' ');
        self.put_decimal(u64::from(entry.location.trial));
        self.put(b'\n');
    }

    // The line of a message, if there is one.
    #[tactic(auto, using(crate::proofs::Puts::puts_nil, crate::proofs::Windows::message_not, crate::proofs::Windows::message_is))]
    fn put_message(&mut self, window: u64, entry: &Entry)
        ensures { let l = message_line (message_bytes entry.now.kind) window (answer_of entry.now) in
            (self.new ≡ puts self.old l) × (length l ≤ 126) }
    {
        if entry.said() == 0 {
            self.put_found(window, entry);
        }
    }
}

// The lines of the messages that there are, the long one first.
fn message_lines(window: u64, long: &Entry, short: &Entry) -> Text
    ensures { result ≡ text_of (message_line (message_bytes long.now.kind) window (answer_of long.now) ++ message_line (message_bytes short.now.kind) window (answer_of short.now)) }
{
    let mut lines = Text::EMPTY;
    lines.put_message(window, long);
    lines.put_message(window, short);
    lines
}

// What is said of a window: a refusal, `none`, or its messages.
#[tactic(auto, unfolding(crate::specs::Lines::window_lines))]
pub fn window_lines(window: u64, long: Answer, short: ShortAnswer) -> Text
    ensures { result ≡ text_of (window_lines window long (of_short short)) }
{
    let long = Entry::from(&long);
    let short = Entry::from(&short);
    match (long.said(), short.said()) {
        (number @ 2.., _) | (_, number @ 2..) => refused_line(u64::from(number)),
        (1, 1) => none_line(window),
        _ => message_lines(window, &long, &short),
    }
}
