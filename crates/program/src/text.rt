// The text of what is said: a line of the listing, the two of a window, or nothing.
ghost use Rattle.std.specs.Prelude.{◌≡◌, length};
ghost use Rattle.lists.specs.From.{tabulate};
ghost use Rattle.search.specs.Kinds.{long, short};
ghost use Rattle.search.specs.Short.{short_answer};
ghost use Rattle.search.specs.Answers.{decode_of};
ghost use Rattle.words.specs.Words.{float_at};
ghost use Rattle.listing.specs.Lines.{text_of};
ghost use Rattle.feed.specs.Run.{line_of};
ghost use Rattle.feed.specs.Listing.{window_text, texts};
ghost use Rattle.feed.specs.Inner.{Whole};

use feed::{Said, Shot};
use listing::Text;
use listing::lines::{head_line, refused_line, window_lines};
use receiver::decode::{decode_both, decode_both_slowly};
use search::{BothAnswers, Settings};
use words::float::window_floats;

fn decoded(slowly: bool, samples: &[f32], s: Settings, index: u64) -> BothAnswers
    ensures { result ≡ record { long = decode_of long samples.now s index; short = short_answer (decode_of short samples.now s index) } }
{
    if slowly {
        decode_both_slowly(samples, s, index)
    } else {
        decode_both(samples, s, index)
    }
}

fn shot_text(slowly: bool, shot: Shot, part: &[u8]) -> Text
    requires { length part.now ≡ 9240 }
    ensures { result ≡ text_of (window_text shot.window (tabulate 2310 (float_at part.now)) shot.settings shot.index) }
{
    let mut samples = [0.0; 2310];
    window_floats(part, &mut samples);
    let both = decoded(slowly, &samples, shot.settings, shot.index);
    window_lines(u64::from(shot.window), both.long, both.short)
}

#[tactic(auto, using(crate::proofs::Texts::texts_one), unfolding(feed::specs::Listing::texts, feed::specs::Listing::line_text, listing::specs::Lines::text_of))]
pub fn text_of(slowly: bool, said: Said, part: &[u8]) -> Text
    requires { Whole said part.now }
    ensures { result ≡ text_of (texts (line_of said part.now)) }
{
    match said {
        Said::Nothing => Text::EMPTY,
        Said::Head(n) => head_line(u64::from(n)),
        Said::Window(shot) => shot_text(slowly, shot, part),
        Said::Refused(refusal) => refused_line(u64::from(refusal.number())),
    }
}
