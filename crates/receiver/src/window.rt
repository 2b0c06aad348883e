// A window that is taken: it is scanned, and only places that can hold a reading are read.
ghost use Rattle.std.specs.Prelude.{◌≡◌, true, ◌*◌, length, replicate};
ghost use Rattle.std.proofs.Math.Option.{none};
ghost use Rattle.annex10.specs.declared.MessageKind.TheVariants as kind;
ghost use Rattle.kernels.specs.Symbols.{sums_of};
ghost use Rattle.place.specs.All.{listed};
ghost use Rattle.search.specs.Choice.{candidate_at, best};
ghost use Rattle.search.specs.Kinds.{long, short};
ghost use Rattle.search.specs.Seen.{seen};
ghost use Rattle.search.specs.Answers.{settings_number};
ghost use Rattle.search.proofs.Staging.{at_level};
ghost use Rattle.receiver.specs.Inner.{kind_of, held_of, held_best};
ghost use Rattle.receiver.specs.InnerSearches.{read_in, Lists, best_among, best_in};

use crate::by_trial::{list_all, try_all};
use crate::find::{find, read_at};
use crate::kinds::{bit_errors, exact_places, repairable_places};
use crate::lent::{Hash, Places, Scan};
use crate::undecided::counted;
use annex10::MessageKind;
use kernels::symbols::symbols_of_sums;
use place::Place;
use scan::window::{scan, scan_both};
use search::{Candidate, Settings};

// The best of the places in a list. Only here the symbols are set out.
fn best_listed(scan: &Scan, places: &Places, s: Settings) -> Option<Candidate>
    requires { Lists scan.now s places.now × (settings_number s ≡ 0) }
    ensures { result ≡ best_among scan.now s places.now }
{
    let mut symbols = [0.0; 2304];
    let _ = symbols_of_sums(scan.sums, &mut symbols);
    find(scan, &symbols, places, s)
}

// The best without repairs. A code of 0 names two positions: it clears nothing without repairs.
fn exact_best(scan: &Scan, list: &mut [u16], codes: &[u32], s: Settings) -> Option<Candidate>
    requires { (settings_number s ≡ 0) × (length list.old ≡ 8 * (kind_of scan.now.kind).last) × (codes.now ≡ replicate (16 * (kind_of scan.now.kind).last) 0) }
    ensures { (result ≡ best_in scan.now (at_level 0 s)) × (length list.new ≡ 8 * (kind_of scan.now.kind).last) }
{
    let count = exact_places(scan, list).unwrap_or(0);
    if count == 0 {
        return None;
    }
    let places = Places {
        numbers: list,
        codes,
        count,
    };
    best_listed(scan, &places, Settings { level: 0, ..s })
}

// The best with repairs, where there is none without.
fn repaired_best(
    scan: &Scan,
    hash: Hash,
    list: &mut [u16],
    codes: &mut [u32],
    s: Settings,
) -> Option<Candidate>
    requires { (settings_number s ≡ 0) × (best (kind_of scan.now.kind) (at_level 0 s) (seen (kind_of scan.now.kind) scan.now.samples.now) ≡ none) × (length list.old ≡ 8 * (kind_of scan.now.kind).last) × (length codes.old ≡ 16 * (kind_of scan.now.kind).last) }
    ensures { result ≡ best_in scan.now s }
{
    let count = repairable_places(scan, hash, s.level, list, codes).unwrap_or(0);
    if count == 0 {
        return None;
    }
    let places = Places {
        numbers: list,
        codes,
        count,
    };
    best_listed(scan, &places, s)
}

// What needs no repair comes first: where there is such a reading, no table is asked.
fn in_stages(
    scan: &Scan,
    hash: Hash,
    list: &mut [u16],
    codes: &mut [u32],
    s: Settings,
) -> Option<Candidate>
    requires { (settings_number s ≡ 0) × (length list.old ≡ 8 * (kind_of scan.now.kind).last) × (codes.old ≡ replicate (16 * (kind_of scan.now.kind).last) 0) }
    ensures { result ≡ best_in scan.now s }
{
    let exact = exact_best(scan, list, codes, s);
    if exact.is_some() || s.level == 0 {
        return exact;
    }
    repaired_best(scan, hash, list, codes, s)
}

// The best by trial: every place is read, and what clears its two messages is found by turning bits over.
fn best_by_trial(scan: &Scan, list: &mut [u16], codes: &mut [u32], s: Settings) -> Option<Candidate>
    requires { (settings_number s ≡ 0) × (length list.old ≡ 8 * (kind_of scan.now.kind).last) × (length codes.old ≡ 16 * (kind_of scan.now.kind).last) }
    ensures { result ≡ best_in scan.now s }
{
    list_all(list);
    try_all(scan.kind, s.level, scan.coherent, scan.noncoherent, codes);
    let places = Places {
        count: list.len(),
        numbers: list,
        codes,
    };
    best_listed(scan, &places, s)
}

// The two ways to repair: all else is the same.
fn best_either(
    slowly: bool,
    scan: &Scan,
    hash: Hash,
    list: &mut [u16],
    codes: &mut [u32],
    s: Settings,
) -> Option<Candidate>
    requires { (settings_number s ≡ 0) × (length list.old ≡ 8 * (kind_of scan.now.kind).last) × (codes.old ≡ replicate (16 * (kind_of scan.now.kind).last) 0) }
    ensures { result ≡ best_in scan.now s }
{
    if slowly {
        best_by_trial(scan, list, codes, s)
    } else {
        in_stages(scan, hash, list, codes, s)
    }
}

// The memory of a list is as long as there are places.
fn best_long(slowly: bool, scan: &Scan, hash: Hash, s: Settings) -> Option<Candidate>
    requires { (scan.now.kind ≡ kind.Long) × (settings_number s ≡ 0) }
    ensures { result ≡ best_in scan.now s }
{
    let mut list = [0; 248];
    let mut codes = [0; 496];
    best_either(slowly, scan, hash, &mut list, &mut codes, s)
}

fn best_short(slowly: bool, scan: &Scan, hash: Hash, s: Settings) -> Option<Candidate>
    requires { (scan.now.kind ≡ kind.Short) × (settings_number s ≡ 0) }
    ensures { result ≡ best_in scan.now s }
{
    let mut list = [0; 696];
    let mut codes = [0; 1392];
    best_either(slowly, scan, hash, &mut list, &mut codes, s)
}

// The best of all places of long messages. The sums stay for the timing of what is found.
pub fn best_of(samples: &[f32], sums: &mut [f32], hash: Hash, s: Settings) -> Option<Candidate>
    requires { (length samples.now ≡ 2310) × (settings_number s ≡ 0) × (length sums.old ≡ 2304) }
    ensures { (result ≡ held_best long samples.now s) × (sums.new ≡ sums_of samples.now) }
{
    let mut coherent = [0; 1152];
    let mut noncoherent = [0; 1152];
    let mut crcs = [0; 248];
    let mut others = [0; 248];
    let _ = scan(
        MessageKind::Long,
        samples,
        sums,
        &mut coherent,
        &mut noncoherent,
        &mut crcs,
        &mut others,
    );
    let scanned = Scan {
        kind: MessageKind::Long,
        samples,
        sums,
        coherent: &coherent,
        noncoherent: &noncoherent,
        crcs: &crcs,
        others: &others,
    };
    best_long(false, &scanned, hash, s)
}

// Of short ones.
pub fn best_of_short(samples: &[f32], sums: &mut [f32], s: Settings) -> Option<Candidate>
    requires { (length samples.now ≡ 2310) × (settings_number s ≡ 0) × (length sums.old ≡ 2304) }
    ensures { (result ≡ held_best short samples.now s) × (sums.new ≡ sums_of samples.now) }
{
    let mut coherent = [0; 1152];
    let mut noncoherent = [0; 1152];
    let mut crcs = [0; 696];
    let mut others = [0; 696];
    let _ = scan(
        MessageKind::Short,
        samples,
        sums,
        &mut coherent,
        &mut noncoherent,
        &mut crcs,
        &mut others,
    );
    let scanned = Scan {
        kind: MessageKind::Short,
        samples,
        sums,
        coherent: &coherent,
        noncoherent: &noncoherent,
        crcs: &crcs,
        others: &others,
    };
    best_short(false, &scanned, Hash::none(), s)
}

#[derive(Clone, Copy, Debug, PartialEq)]
pub struct Both {
    pub long: Option<Candidate>,
    pub short: Option<Candidate>,
}

// Of both: sums and bits are made once.
pub fn best_of_both(
    slowly: bool,
    samples: &[f32],
    sums: &mut [f32],
    hash: Hash,
    s: Settings,
) -> Both
    requires { (length samples.now ≡ 2310) × (settings_number s ≡ 0) × (length sums.old ≡ 2304) }
    ensures { (result.long ≡ held_best long samples.now s) × (result.short ≡ held_best short samples.now s) × (sums.new ≡ sums_of samples.now) }
{
    let mut coherent = [0; 1152];
    let mut noncoherent = [0; 1152];
    let mut crcs = [0; 248];
    let mut others = [0; 248];
    let mut short_crcs = [0; 696];
    let mut short_others = [0; 696];
    let _ = scan_both(
        samples,
        sums,
        &mut coherent,
        &mut noncoherent,
        &mut crcs,
        &mut others,
        &mut short_crcs,
        &mut short_others,
    );
    let long = Scan {
        kind: MessageKind::Long,
        samples,
        sums,
        coherent: &coherent,
        noncoherent: &noncoherent,
        crcs: &crcs,
        others: &others,
    };
    let short = Scan {
        kind: MessageKind::Short,
        samples,
        sums,
        coherent: &coherent,
        noncoherent: &noncoherent,
        crcs: &short_crcs,
        others: &short_others,
    };
    Both {
        long: best_long(slowly, &long, hash, s),
        short: best_short(slowly, &short, hash, s),
    }
}

// The surviving reading of one place of a window that is scanned.
fn read_alone(scan: &Scan, s: Settings, place: Place) -> Option<Candidate>
    requires { (listed (kind_of scan.now.kind).last place ≡ true) × (settings_number s ≡ 0) }
    ensures { result ≡ read_in scan.now s place }
{
    let i = 8 * place.bit + 4 * place.symbol + place.phase - 8;
    let both = [scan.crcs[i], scan.others[i]];
    let mut codes = [0; 2];
    let _ = bit_errors(scan.kind, s.level, &both, &mut codes);
    let mut symbols = [0.0; 2304];
    let _ = symbols_of_sums(scan.sums, &mut symbols);
    let read = read_at(scan, &symbols, codes[0], codes[1], s, place)?;
    Some(counted(scan.kind, &symbols, read))
}

// The surviving reading of one place, of long messages.
pub fn reading_at(samples: &[f32], s: Settings, place: Place) -> Option<Candidate>
    requires { (length samples.now ≡ 2310) × (listed long.last place ≡ true) × (settings_number s ≡ 0) }
    ensures { result ≡ held_of long (candidate_at long s (seen long samples.now) place) }
{
    let mut coherent = [0; 1152];
    let mut noncoherent = [0; 1152];
    let mut crcs = [0; 248];
    let mut others = [0; 248];
    let mut sums = [0.0; 2304];
    let _ = scan(
        MessageKind::Long,
        samples,
        &mut sums,
        &mut coherent,
        &mut noncoherent,
        &mut crcs,
        &mut others,
    );
    let scanned = Scan {
        kind: MessageKind::Long,
        samples,
        sums: &sums,
        coherent: &coherent,
        noncoherent: &noncoherent,
        crcs: &crcs,
        others: &others,
    };
    read_alone(&scanned, s, place)
}

// Of short ones.
pub fn reading_at_short(samples: &[f32], s: Settings, place: Place) -> Option<Candidate>
    requires { (length samples.now ≡ 2310) × (listed short.last place ≡ true) × (settings_number s ≡ 0) }
    ensures { result ≡ held_of short (candidate_at short s (seen short samples.now) place) }
{
    let mut coherent = [0; 1152];
    let mut noncoherent = [0; 1152];
    let mut crcs = [0; 696];
    let mut others = [0; 696];
    let mut sums = [0.0; 2304];
    let _ = scan(
        MessageKind::Short,
        samples,
        &mut sums,
        &mut coherent,
        &mut noncoherent,
        &mut crcs,
        &mut others,
    );
    let scanned = Scan {
        kind: MessageKind::Short,
        samples,
        sums: &sums,
        coherent: &coherent,
        noncoherent: &noncoherent,
        crcs: &crcs,
        others: &others,
    };
    read_alone(&scanned, s, place)
}
