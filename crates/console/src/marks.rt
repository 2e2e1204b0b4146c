// The requests `mark`: the typed answer read, its key and window, and the mark.
ghost use Rattle.std.specs.Prelude.{◌≡◌};
ghost use Rattle.text.specs.Puts.{WroteAtMost};
ghost use Rattle.fields.specs.Words.{named_at};
ghost use Rattle.fields.specs.Fields.{two_of};
ghost use Rattle.console.specs.Limits.{reply_room};
ghost use Rattle.console.specs.Marks.{kinds, kind_of, in_unit, marked_text, typed_text, kind_text, mark_request};
ghost use Rattle.console.specs.inner.Left.{fields_left};

use crate::rest::Rest;
use crate::{replies, rest};
use marking::Typed;
use text::Pen;

// What kind of answer is typed.
#[derive(Clone, Copy)]
enum Kind {
    Kelvins,
    Content,
    Blank,
    Unknown,
}

// What a typed number measures.
#[derive(Clone, Copy)]
enum Measure {
    Kelvins,
    Content,
}

// The kind at a place of the table.
fn kind_at(p: usize) -> Kind
    ensures { result ≡ named_at kinds Kind.Unknown p }
{
    match p {
        0 => Kind::Kelvins,
        1 => Kind::Content,
        2 => Kind::Blank,
        _ => Kind::Unknown,
    }
}

// The kind that a word names.
#[tactic(auto, unfolding(crate::specs::Marks::kind_of))]
fn kind_of(word: &[u8]) -> Kind
    ensures { result ≡ kind_of word.now }
{
    kind_at(fields::position_in(word, b"kelvins\tcontent\tblank"))
}

// A typed number in kelvins, or as a specific content.
fn in_unit(measure: Measure, x: f64) -> Typed
    ensures { result ≡ in_unit measure x }
{
    match measure {
        Measure::Kelvins => Typed::Kelvins(x),
        Measure::Content => Typed::Content(x),
    }
}

// The mark of a typed answer, its key and window in the fields that are left.
fn put_marked(answer: Typed, rest: Rest<'_>, pen: &mut Pen<'_>)
    ensures { WroteAtMost reply_room (marked_text answer (two_of (fields_left rest.entry))) pen.old pen.new }
{
    let Some((key, window)) = fields::read_two(rest.line, rest.from) else {
        return replies::put_misfit(pen);
    };
    wording::put_mark(marking::mark(answer, key, window), pen);
}

// The mark of what was typed in the first field that is left, where it is a number.
fn put_typed(measure: Measure, rest: Rest<'_>, pen: &mut Pen<'_>)
    ensures { WroteAtMost reply_room (typed_text measure (fields_left rest.entry)) pen.old pen.new }
{
    let Some((typed, rest)) = rest::next_field(rest) else {
        return replies::put_misfit(pen);
    };
    let Some(x) = typed::read_number(typed) else {
        return replies::put_no_number(pen);
    };
    put_marked(in_unit(measure, x), rest, pen);
}

// The mark of an answer of a kind.
fn put_kind(kind: Kind, rest: Rest<'_>, pen: &mut Pen<'_>)
    ensures { WroteAtMost reply_room (kind_text kind (fields_left rest.entry)) pen.old pen.new }
{
    match kind {
        Kind::Kelvins => put_typed(Measure::Kelvins, rest, pen),
        Kind::Content => put_typed(Measure::Content, rest, pen),
        Kind::Blank => put_marked(Typed::Blank, rest, pen),
        Kind::Unknown => replies::put_misfit(pen),
    }
}

// mark kelvins x key window, mark content x key window, mark blank key window
pub(crate) fn reply_mark(rest: Rest<'_>, pen: &mut Pen<'_>)
    ensures { WroteAtMost reply_room (mark_request (fields_left rest.entry)) pen.old pen.new }
{
    let Some((kind, rest)) = rest::next_field(rest) else {
        return replies::put_misfit(pen);
    };
    put_kind(kind_of(kind), rest, pen);
}
