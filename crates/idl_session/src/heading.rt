//! Command lines: words parted by one blank each.

ghost use Rattle.std.specs.Prelude.{◌≡◌, [], ◌∷◌, true, false, map, IfSome, MatchOption};
ghost use Rattle.idl_source.specs.names.Name.{is_visible};
ghost use Rattle.idl_source.specs.texts.Line.{IsLine};
ghost use Rattle.idl_session.specs.Requests.{request_in_words, define_request, counted_request, pair_request, words, is_command_word, is_number, is_digit, value_of};
ghost use Rattle.idl_session.specs.Headings.{request_by, words_after, HasLines};
ghost use Rattle.std.specs.List.{list_all};

use idl_project::Span;
use idl_source::first_part;

/// Where announced lines go.
#[derive(Clone, Copy)]
pub enum Placement<'a> {
    /// Into a file of this name, as its lines.
    Put(&'a [u8]),
    /// Into a file of this name, in the place of a span.
    Splice(&'a [u8], Span),
}

/// An edit that no line follows.
#[derive(Clone, Copy)]
pub enum EditCommand<'a> {
    /// To remove a file.
    Remove(&'a [u8]),
    /// To define a macro with a body.
    Define(&'a [u8], &'a [u8]),
    /// To take a macro out.
    Undef(&'a [u8]),
    /// To search included files in the directories that follow, parted by one blank each, if any do.
    Search(Option<&'a [u8]>),
    /// To make a file a root.
    AddRoot(&'a [u8]),
    /// To make it none any more.
    DropRoot(&'a [u8]),
}

/// What is asked of a root.
#[derive(Clone, Copy)]
pub enum RootQuery {
    Diagnostics,
    Listing,
    Dump,
    /// The files that it asks for and that aren't there.
    Absent,
}

/// What a command line asks for. The words lie in the line.
#[derive(Clone, Copy)]
pub enum Heading<'a> {
    /// No command.
    Malformed,
    /// To place lines, of which so many follow.
    Place(Placement<'a>, usize),
    /// To edit something else.
    Make(EditCommand<'a>),
    /// A question about a root.
    Ask(RootQuery, &'a [u8]),
    /// The work of the last accepted edit.
    Work,
}

/// Reads a command line.
pub fn parse(line: &[u8]) -> Heading<'_>
    requires { IsLine line.now }
    ensures request { request_by result ≡ request_in_words (words line.entry.now) }
    ensures one_line { HasLines result }
{
    let (first, rest) = first_part(line, b' ');
    if first == b"define".as_slice() {
        return parse_define(rest);
    }
    if !are_words(line) {
        return Heading::Malformed;
    }
    if first == b"search".as_slice() {
        return Heading::Make(EditCommand::Search(rest));
    }
    match rest {
        Some(rest) => parse_words(first, rest),
        None => lone_heading(first),
    }
}

// A command of one word.
fn lone_heading<'a>(word: &'a [u8]) -> Heading<'a>
    ensures request { request_by result ≡ counted_request word.entry.now [] }
    ensures one_line { HasLines result }
{
    if word == b"work".as_slice() {
        return Heading::Work;
    }
    Heading::Malformed
}

// A command that defines a macro: a word, and if a blank follows it a body.
fn parse_define(rest: Option<&[u8]>) -> Heading<'_>
    requires { IfSome rest (λ bytes. IsLine bytes.now) }
    ensures request { request_by result ≡ define_request (words_after rest.entry) }
    ensures one_line { HasLines result }
{
    let Some(rest) = rest else {
        return Heading::Malformed;
    };
    let (word, more) = first_part(rest, b' ');
    if !is_command_word(word) {
        return Heading::Malformed;
    }
    let Some(body) = more else {
        return Heading::Make(EditCommand::Define(word, b""));
    };
    Heading::Make(EditCommand::Define(word, body))
}

// A command of a first word and the words in the rest.
fn parse_words<'a>(first: &'a [u8], rest: &'a [u8]) -> Heading<'a>
    ensures request { request_by result ≡ counted_request first.entry.now (words rest.entry.now) }
    ensures one_line { HasLines result }
{
    let (second, rest) = first_part(rest, b' ');
    let Some(rest) = rest else {
        return pair_heading(first, second);
    };
    let (third, rest) = first_part(rest, b' ');
    let Some(rest) = rest else {
        return put_heading(first, second, third);
    };
    let (fourth, rest) = first_part(rest, b' ');
    let Some(rest) = rest else {
        return Heading::Malformed;
    };
    let (fifth, rest) = first_part(rest, b' ');
    match rest {
        None => splice_heading(first, second, [third, fourth, fifth]),
        Some(_more) => Heading::Malformed,
    }
}

fn pair_heading<'a>(first: &'a [u8], about: &'a [u8]) -> Heading<'a>
    ensures request { request_by result ≡ pair_request first.entry.now about.entry.now }
    ensures one_line { HasLines result }
{
    if first == b"remove".as_slice() {
        Heading::Make(EditCommand::Remove(about))
    } else if first == b"undef".as_slice() {
        Heading::Make(EditCommand::Undef(about))
    } else if first == b"root".as_slice() {
        Heading::Make(EditCommand::AddRoot(about))
    } else if first == b"unroot".as_slice() {
        Heading::Make(EditCommand::DropRoot(about))
    } else if first == b"diagnostics".as_slice() {
        Heading::Ask(RootQuery::Diagnostics, about)
    } else if first == b"listing".as_slice() {
        Heading::Ask(RootQuery::Listing, about)
    } else if first == b"dump".as_slice() {
        Heading::Ask(RootQuery::Dump, about)
    } else if first == b"absent".as_slice() {
        Heading::Ask(RootQuery::Absent, about)
    } else {
        Heading::Malformed
    }
}

fn put_heading<'a>(first: &'a [u8], name: &'a [u8], count: &'a [u8]) -> Heading<'a>
    ensures request { let words = name.entry.now ∷ count.entry.now ∷ [] in
        request_by result ≡ counted_request first.entry.now words }
    ensures one_line { HasLines result }
{
    if first != b"put".as_slice() {
        return Heading::Malformed;
    }
    match parse_number(count) {
        Some(count) => Heading::Place(Placement::Put(name), count),
        None => Heading::Malformed,
    }
}

// The three numbers are where the span begins, how many lines it has, and how many follow.
fn splice_heading<'a>(first: &'a [u8], name: &'a [u8], numbers: [&'a [u8]; 3]) -> Heading<'a>
    ensures request { let words = name.entry.now ∷ map (λ number. number.now) numbers.entry in
        request_by result ≡ counted_request first.entry.now words }
    ensures one_line { HasLines result }
{
    if first != b"splice".as_slice() {
        return Heading::Malformed;
    }
    let [from, del, count] = numbers;
    let Some(from) = parse_number(from) else {
        return Heading::Malformed;
    };
    let Some(del) = parse_number(del) else {
        return Heading::Malformed;
    };
    match parse_number(count) {
        Some(count) => Heading::Place(Placement::Splice(name, Span { from, del }), count),
        None => Heading::Malformed,
    }
}

// Whether all parts between the blanks are words.
fn are_words(line: &[u8]) -> bool
    ensures { result ≡ list_all is_command_word (words line.now) }
{
    let mut left = line;
    'words: loop {
        let (word, rest) = first_part(left, b' ');
        if !is_command_word(word) {
            return false;
        }
        match rest {
            Some(rest) => left = rest,
            None => return true,
        }
    }
}

fn is_command_word(word: &[u8]) -> bool
    ensures { result ≡ is_command_word word.now }
{
    !word.is_empty() && are_visible(word)
}

fn are_visible(bytes: &[u8]) -> bool
    ensures { result ≡ list_all is_visible bytes.now }
{
    bytes.iter().all(|b| b.is_ascii_graphic())
}

// The value of `0`, or of one to nine digits without leading zero.
fn parse_number(digits: &[u8]) -> Option<usize>
    ensures { MatchOption result
        (is_number digits.now ≡ false)
        (λ n. (is_number digits.now ≡ true) × (n ≡ value_of digits.now)) }
{
    if !is_number(digits) {
        return None;
    }
    let mut n: usize = 0;
    for d in digits {
        n = 10 * n + usize::from(d.saturating_sub(b'0'));
    }
    Some(n)
}

fn is_number(digits: &[u8]) -> bool
    ensures { result ≡ is_number digits.now }
{
    match digits {
        [] => false,
        [first, rest @ ..] => {
            first.is_ascii_digit()
                && are_digits(rest)
                && rest.len() <= 8
                && (*first != b'0' || rest.is_empty())
        }
    }
}

fn are_digits(bytes: &[u8]) -> bool
    ensures { result ≡ list_all is_digit bytes.now }
{
    bytes.iter().all(|b| b.is_ascii_digit())
}
