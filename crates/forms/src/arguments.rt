// The arguments (docs/PROGRAM.md): a form, its file, and at the end `--sheet FILE`. They are seen word by word; which form they are is told by how many words there
// are, which the first is and where the first `--sheet` stands.
ghost use Rattle.std.specs.Prelude.{◌≡◌};
ghost use Rattle.fields.specs.Words.{named_at};
ghost use Rattle.forms.specs.Arguments.{words, word_of, option_at, form_at, plain as Arguments·plain, alone as Arguments·alone, with_file, over_none};
ghost use Rattle.forms.specs.inner.Seen.{no_words, with_word};

// What a word of the arguments is.
#[derive(Clone, Copy)]
pub enum Word {
    Ask,
    Walk,
    Sheet,
    Write,
    Option,
    Help,
    Version,
    Other,
}

// The words seen so far: which the first is, and the place of the first `--sheet`.
#[derive(Clone, Copy)]
pub struct Words {
    pub first: Word,
    pub option: Option<usize>,
}

// What is done over a sheet: the example is printed, a walk is printed from the file that an argument names or from standard input, requests are answered, the sheet's text is printed.
#[derive(Clone, Copy)]
pub enum Job {
    Example,
    Walk(Option<usize>),
    Ask,
    Write,
}

// A job over the sheet whose file an argument names, the built-in one else; a sheet to judge from a file or from standard input; how to go on; the version; a `--sheet FILE` that does not stand at the end; or arguments that are no form.
#[derive(Clone, Copy)]
pub enum Form {
    Over(Job, Option<usize>),
    Sheet(Option<usize>),
    Help,
    Version,
    Misplaced,
    Wrong,
}

// What the word at a place of the table is.
fn word_at(p: usize) -> Word
    ensures { result ≡ named_at words Word.Other p }
{
    match p {
        0 => Word::Ask,
        1 => Word::Walk,
        2 => Word::Sheet,
        3 => Word::Write,
        4 => Word::Option,
        5 | 6 => Word::Help,
        7 => Word::Version,
        _ => Word::Other,
    }
}

// What a word is.
#[tactic(auto, unfolding(crate::specs::Arguments::word_of))]
fn word_of(text: &[u8]) -> Word
    ensures { result ≡ word_of text.now }
{
    word_at(fields::position_in(
        text,
        b"ask\twalk\tsheet\twrite\t--sheet\t--help\t-h\t--version",
    ))
}

// No word seen.
pub fn none() -> Words
    ensures { result ≡ no_words }
{
    Words {
        first: Word::Other,
        option: None,
    }
}

// The place of an option, where this word is one.
fn option_at(i: usize, word: Word) -> Option<usize>
    ensures { result ≡ option_at i word }
{
    match word {
        Word::Option => Some(i),
        _ => None,
    }
}

// The words with argument i, the first being argument 1.
pub fn with_word(words: Words, i: usize, text: &[u8]) -> Words
    ensures { result ≡ with_word words i text.now }
{
    let word = word_of(text);
    Words {
        first: if i == 1 { word } else { words.first },
        option: words.option.or(option_at(i, word)),
    }
}

// The form of so many words, the program's name among them.
pub fn form_of(count: usize, words: Words) -> Form
    ensures { result ≡ form_at count words }
{
    let Some(option) = words.option else {
        return plain(count, words.first, None);
    };
    if option < count && count - option == 2 {
        return plain(option, words.first, Some(option + 1));
    }
    Form::Misplaced
}

// The form of so many words, with the sheet that is named after them.
fn plain(count: usize, first: Word, named: Option<usize>) -> Form
    ensures { result ≡ Arguments·plain count first named }
{
    if count < 2 {
        return Form::Over(Job::Example, named);
    }
    match count {
        2 => alone(first, named),
        3 => with_file(first, named),
        _ => Form::Wrong,
    }
}

// The form of one word.
fn alone(word: Word, named: Option<usize>) -> Form
    ensures { result ≡ Arguments·alone word named }
{
    match word {
        Word::Ask => Form::Over(Job::Ask, named),
        Word::Walk => Form::Over(Job::Walk(None), named),
        Word::Sheet => over_none(Form::Sheet(None), named),
        Word::Write => Form::Over(Job::Write, named),
        Word::Help => over_none(Form::Help, named),
        Word::Version => over_none(Form::Version, named),
        _ => Form::Wrong,
    }
}

// The form of a word and a file.
fn with_file(word: Word, named: Option<usize>) -> Form
    ensures { result ≡ with_file word named }
{
    match word {
        Word::Walk => Form::Over(Job::Walk(Some(2)), named),
        Word::Sheet => over_none(Form::Sheet(Some(2)), named),
        _ => Form::Wrong,
    }
}

// A form that takes no other sheet.
fn over_none(form: Form, named: Option<usize>) -> Form
    ensures { result ≡ over_none form named }
{
    match named {
        None => form,
        Some(_) => Form::Wrong,
    }
}
