//! Calls that take no memory, made while each request for memory is refused.

ghost use Rattle.std.specs.Prelude.{◌≡◌, ◌≤◌, length};

use crate::lent::{CHOICE, Lists, OF, OPTIONAL, TWO, Templates, profile, set_lent, text_lent};
use crate::refused::{Refused, retried};
use lic_auto::{Back, Run};
use lic_ere::Ere;
use lic_find::Finder;
use lic_kind::{Kind, Rules, kind_of};
use lic_norm::{Feeder, Text, Words};
use lic_rows::{Bits, and_into, any_from, is_zero, or_into, shift_up_one};
use lic_set::{Set, Triple};
use lic_stream::{Counted, Sink, Source};
use std::alloc::{AllocError, Global};
use std::process::Abort;

/// A request that no system grants. To `scripts/refused_growths/fail_nth.c`, where that is preloaded, it is a sign: from the first on
/// each request is refused and counted, up to the next.
const SIGN: usize = 1 << 62;

/// Gives the sign, and says whether it was refused.
fn sign(alloc: Global) -> bool {
    let asked: Result<Vec<u8>, AllocError> = Vec::with_capacity(alloc, SIGN);
    asked.is_err()
}

/// By this one request the script sees that it counts what is asked for between two signs.
#[test]
fn a_request_between_signs_is_counted(rt: HostRuntime) {
    let is_begun = sign(rt.alloc());
    let asked: Result<Vec<u8>, AllocError> = Vec::with_capacity(rt.alloc(), 64);
    drop(asked);
    let is_ended = sign(rt.alloc());
    assert!(rt; is_begun & is_ended);
}

/// Templates, an input, its matches, and the first template that describes all of the input.
#[derive(Clone, Copy)]
struct Case {
    templates: Templates<'static>,
    input: &'static [u8],
    matches: &'static [(usize, usize, usize)],
    whole: Option<usize>,
}

const CASES: &[Case] = &[
    Case {
        templates: OPTIONAL,
        input: b"a b c d",
        matches: &[(0, 3, 0)],
        whole: Some(0),
    },
    Case {
        templates: TWO,
        input: b"foo bar",
        matches: &[(0, 1, 0), (0, 1, 1)],
        whole: Some(0),
    },
    Case {
        templates: OF,
        input: b"x of y of z",
        matches: &[(0, 2, 0), (0, 3, 0), (0, 4, 0), (1, 4, 0), (2, 4, 0)],
        whole: Some(0),
    },
    Case {
        templates: CHOICE,
        input: b"bxx end yz end bxxxx end",
        matches: &[(0, 1, 0), (1, 1, 0), (2, 3, 0), (3, 3, 0), (5, 5, 0)],
        whole: None,
    },
];

/// What memory was taken for.
#[derive(Drop)]
struct Machines<'a> {
    run: Run<'a>,
    back: Back<'a>,
    finder: Finder<'a>,
}

/// Puts machines where the caller says.
fn make_machines<'a>(
    alloc: Global,
    set: &'a Set,
    text: &'a Text,
    made: &mut Option<Machines<'a>>,
) -> Result<(), Refused> {
    *made = Some(Machines {
        run: Run::new(alloc, set)?,
        back: Back::new(alloc, set)?,
        finder: Finder::new(alloc, set, text)?,
    });
    Ok(())
}

/// Machines; made again if memory runs out.
fn machines_of<'a>(rt: &impl Abort, alloc: Global, set: &'a Set, text: &'a Text) -> Machines<'a> {
    let mut made = None;
    retried(rt, || make_machines(alloc, set, text, &mut made));
    made.expect(rt, "machines")
}

/// Lets a machine read the text: whether it gives the first template that describes all of it.
fn reads_on(run: &mut Run<'_>, text: &Text, whole: Option<usize>) -> bool {
    run.reset();
    for k in 0..text.len() {
        run.push(text.token(k).text);
    }
    run.accepted(0) == whole && run.steps() > 0 && (whole.is_none() || !run.dead())
}

/// Lets a machine read the text from its end: whether it says that a match begins there.
fn reads_back(back: &mut Back<'_>, text: &Text) -> bool {
    back.reset();
    for k in (0..text.len()).rev() {
        back.push_front(text.token(k).text);
    }
    back.live() && back.live_numbers().first() == Some(&0) && back.steps() > 0
}

/// Whether these are the matches, found one by one.
fn finds(finder: &mut Finder<'_>, matches: &[(usize, usize, usize)]) -> bool {
    for (first, last, template) in matches {
        let triple = Triple {
            first: *first,
            last: *last,
            template: *template,
        };
        if finder.next() != Some(triple) {
            return false;
        }
    }
    finder.next().is_none() && finder.next().is_none() && finder.steps() > 0
}

/// Whether the bytes of each token are bytes of the source, and its text is part of the canonical spelling.
fn has_tokens(text: &Text) -> bool {
    let mut count = 0usize;
    for k in 0..text.len() {
        let token = text.token(k);
        let is_there = text.place(k).start < text.spelled().len();
        let is_read = text.slice(token.span).len() <= text.source().len();
        count = count.saturating_add(usize::from(is_there & is_read));
    }
    count == text.len()
}

/// Whether each template has parts, a weight and an original text.
fn has_templates(set: &Set) -> bool {
    for k in 0..set.len() {
        let template = set.template(k);
        let is_known = !set.id(k).is_empty() && !template.original().is_empty();
        if !is_known || template.parts().is_empty() || template.weight() == 0 {
            return false;
        }
    }
    set.len() > 0
}

/// Whether machines answer rightly, and those that read do so again.
fn answers(machines: &mut Machines<'_>, text: &Text, case: &Case) -> bool {
    let (run, back) = (&mut machines.run, &mut machines.back);
    finds(&mut machines.finder, case.matches)
        && reads_on(run, text, case.whole)
        && reads_back(back, text)
        && reads_on(run, text, case.whole)
        && reads_back(back, text)
}

/// Whether tokens, templates and machines answer rightly between two signs.
fn answers_between(
    alloc: Global,
    machines: &mut Machines<'_>,
    set: &Set,
    text: &Text,
    case: &Case,
) -> bool {
    let is_begun = sign(alloc);
    let is_right = has_tokens(text) && has_templates(set) && answers(machines, text, case);
    let is_ended = sign(alloc);
    is_begun & is_ended & is_right
}

fn try_case(rt: &impl Abort, alloc: Global, case: &Case, lists: &Lists) {
    let set = set_lent(rt, alloc, case.templates, lists);
    let text = text_lent(rt, alloc, case.input, lists);
    let mut machines = machines_of(rt, alloc, &set, &text);
    assert!(rt; answers_between(alloc, &mut machines, &set, &text, case));
}

#[test]
fn machines_take_no_memory_once_made(rt: HostRuntime) {
    let lists = profile(rt.alloc());
    for case in CASES {
        try_case(&rt, rt.alloc(), case, &lists);
    }
}

/// More tokens than wait for what follows.
const LINE: &[u8] = b"a b c d e f g h i j k l m n o p q r s t u v w x y z\n";

/// A feeder that was fed a line.
fn fed<'w>(alloc: Global, lists: &'w Lists) -> Result<Feeder<'w>, Refused> {
    let mut feeder = Feeder::new(alloc, &lists.words, &lists.rules);
    feeder.feed(LINE).map_err(Refused::Text)?;
    Ok(feeder)
}

/// Whether a feeder has settled tokens, each of one byte.
fn has_settled(feeder: &Feeder<'_>) -> bool {
    let mut count = 0usize;
    for k in 0..feeder.ready() {
        let token = feeder.token(k);
        count = count.saturating_add(usize::from(token.text.len() == 1));
    }
    count > 0 && count == feeder.ready()
}

/// Whether a list, rules, a feeder, a reader and a writer are made, all of them empty.
fn makes(alloc: Global) -> bool {
    let words = Words::none(alloc);
    let rules = Rules::profile(alloc);
    let feeder = Feeder::new(alloc, &words, &rules);
    let input: &[u8] = b"foo";
    let source = Counted::new(input);
    let sink = Counted::new(Vec::new(alloc));
    feeder.ready() == 0 && Source::failures(&source) == 0 && Sink::failures(&sink) == 0
}

/// Whether a set of a pattern and the kinds of characters are as they should.
fn knows_letters(pattern: &Ere) -> bool {
    let is_set = match pattern {
        Ere::Set(class) => class.has('b') && !class.has('e'),
        _ => false,
    };
    is_set && kind_of('a') == Kind::Word && kind_of('\u{2029}') == Kind::Blank
}

/// Puts a pattern where the caller says.
fn read_pattern(alloc: Global, read: &mut Option<Ere>) -> Result<(), Refused> {
    *read = Some(lic_ere::read(alloc, "[^d-z]").map_err(Refused::Pattern)?);
    Ok(())
}

/// A pattern; made again if memory runs out.
fn pattern_of(rt: &impl Abort, alloc: Global) -> Ere {
    let mut read = None;
    retried(rt, || read_pattern(alloc, &mut read));
    read.expect(rt, "a pattern")
}

/// Whether what is empty is made, and what is settled and read is right, between two signs.
fn makes_between(alloc: Global, feeder: &Feeder<'_>, pattern: &Ere) -> bool {
    let is_begun = sign(alloc);
    let is_right = makes(alloc) && has_settled(feeder) && knows_letters(pattern);
    let is_ended = sign(alloc);
    is_begun & is_ended & is_right
}

#[test]
fn what_is_made_empty_takes_no_memory(rt: HostRuntime) {
    let lists = profile(rt.alloc());
    let feeder = retried(&rt, || fed(rt.alloc(), &lists));
    let pattern = pattern_of(&rt, rt.alloc());
    assert!(rt; makes_between(rt.alloc(), &feeder, &pattern));
}

/// Whether the kernels on words give the rows that they should.
fn moves_words() -> bool {
    let mut row = [1u64 << 63, 0, 0, 0, 0];
    shift_up_one(&mut row, 300);
    let is_carried = row == [0, 1, 0, 0, 0] && any_from(&row, 64) && !any_from(&row, 65);
    or_into(&mut row, &[2, 0, 0, 0, 4]);
    let is_joined = row == [2, 1, 0, 0, 4];
    and_into(&mut row, &[1, 2, 0, 0, 8]);
    is_carried && is_joined && is_zero(&row)
}

/// Whether a row of bits does as it should; it has as many as `other`.
fn moves_bits(row: &mut Bits, other: &Bits) -> bool
    requires same { length row.old ≡ length other.now }
    requires long { 70 ≤ length row.old }
{
    row.put(0, true);
    row.move_up(0, 70, false);
    let is_moved = row.get(1) && !row.get(0) && row.is_any_set(0, 70);
    let is_last = row.last_set(0, 70) == Some(1);
    row.clear(0, 70);
    let is_clear = !row.is_any_set(0, 70) && !row.join(other);
    row.copy_from(other);
    is_moved && is_last && is_clear && row.len() == other.len()
}

/// Two rows of bits.
fn two_rows(alloc: Global) -> Result<(Bits, Bits), Refused> {
    Ok((Bits::new(alloc, 70)?, Bits::new(alloc, 70)?))
}

/// Puts them where the caller says.
fn make_rows(alloc: Global, made: &mut Option<(Bits, Bits)>) -> Result<(), Refused> {
    *made = Some(two_rows(alloc)?);
    Ok(())
}

/// Two rows of bits; made again if memory runs out.
fn rows_of(rt: &impl Abort, alloc: Global) -> (Bits, Bits) {
    let mut made = None;
    retried(rt, || make_rows(alloc, &mut made));
    made.expect(rt, "two rows")
}

/// Whether words and bits are moved rightly between two signs.
fn moves_between(alloc: Global, row: &mut Bits, other: &Bits) -> bool
    requires same { length row.old ≡ length other.now }
    requires long { 70 ≤ length row.old }
{
    let is_begun = sign(alloc);
    let is_right = moves_words() & moves_bits(row, other);
    let is_ended = sign(alloc);
    is_begun & is_ended & is_right
}

#[test]
fn rows_of_bits_take_no_memory_once_made(rt: HostRuntime) {
    let (mut row, other) = rows_of(&rt, rt.alloc());
    assert!(rt; row.len() == 70 && other.len() == 70);
    assert!(rt; moves_between(rt.alloc(), &mut row, &other));
}
