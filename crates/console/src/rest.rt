// What is left of a request line behind the fields that were read.
ghost use Rattle.std.specs.Prelude.{◌≡◌, [], ◌∷◌, MatchOption};
ghost use Rattle.console.specs.inner.Left.{fields_left};

// The fields of a line from a place on: there are none where the place is past the line's end, behind its last field.
#[derive(Clone, Copy)]
pub(crate) struct Rest<'a> {
    pub line: &'a [u8],
    pub from: usize,
}

// The first field that is left, and what is left behind it.
pub(crate) fn next_field<'a>(rest: Rest<'a>) -> Option<(&'a [u8], Rest<'a>)>
    ensures { MatchOption result (fields_left rest.entry ≡ []) (λ p. fields_left rest.entry ≡ p.0.now ∷ fields_left p.1) }
{
    let line = rest.line;
    let from = rest.from;
    if from > line.len() {
        return None;
    }
    let end = fields::field_end(line, from);
    Some((
        &line[from..end],
        Rest {
            line,
            from: end + 1,
        },
    ))
}
