// Tokens of a text: a bracket, a comma, or a longest run of other bytes but space. Spaces may stand between tokens and are none.

ghost use Rattle.std.specs.Prelude.{◌≡◌, ◌+◌, drop};
ghost use Rattle.text.specs.Tokens.{gap, separates, extent, next, place};
ghost use Rattle.text.specs.private.Placed.{Placed};

pub(crate) const SPACE: u8 = b' ';

pub(crate) const OPEN: u8 = b'(';

pub(crate) const CLOSE: u8 = b')';

pub(crate) const COMMA: u8 = b',';

// A token by its offset; a run also by the offset behind it.
#[derive(Clone, Copy)]
pub enum Token {
    Open(usize),
    Close(usize),
    Comma(usize),
    Run(usize, usize),
    // None is left; the offset is the text's end.
    End(usize),
}

impl Token {
    // Where the token stands.
    pub(crate) fn place(self) -> usize
        ensures { result ≡ place self }
    {
        match self {
            Token::Run(at, _) => at,
            Token::Open(at) | Token::Close(at) | Token::Comma(at) | Token::End(at) => at,
        }
    }
}

// The first token from `at` on.
pub(crate) fn next_token(text: &[u8], at: usize) -> Token
    ensures token { result ≡ next text.now at }
    ensures place { Placed text.now at result }
{
    let start = skip_spaces(text, at);
    match text.get(start) {
        None => Token::End(start),
        Some(&OPEN) => Token::Open(start),
        Some(&CLOSE) => Token::Close(start),
        Some(&COMMA) => Token::Comma(start),
        Some(_) => Token::Run(start, run_end(text, start)),
    }
}

// The first offset from `at` on that has no space.
fn skip_spaces(text: &[u8], at: usize) -> usize
    ensures { result ≡ at + gap (drop at text.now) }
{
    at + rest(text, at).iter().take_while(|b| **b == SPACE).count()
}

// The offset behind the run that begins at `at`.
fn run_end(text: &[u8], at: usize) -> usize
    ensures { result ≡ at + extent (drop at text.now) }
{
    at + rest(text, at)
        .iter()
        .take_while(|b| !is_separator(**b))
        .count()
}

// The bytes from an offset on, of which there may be none.
fn rest(text: &[u8], at: usize) -> &[u8]
    ensures { result.now ≡ drop at text.now }
{
    text.get(at..).unwrap_or(&[])
}

// Whether no run has this byte.
fn is_separator(byte: u8) -> bool
    ensures { result ≡ separates byte }
{
    byte == SPACE || byte == OPEN || byte == CLOSE || byte == COMMA
}
