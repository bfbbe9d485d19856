//! Numbers, ranges and kinds of report as they are written.

ghost use Rattle.std.specs.Prelude.{◌≡◌, Option};
ghost use Rattle.std.specs.Option.{option_map};
ghost use Rattle.std.specs.List.{list_all};
ghost use Rattle.std.specs.Char.{is_ascii_digit};
ghost use Rattle.cfg_words.specs.Value.{is_number, number_of, number_within, workers_of};
ghost use Rattle.cfg_words.specs.Value.{kind_named, report_kind_of};

use graph_report::ReportKind;

/// The most digits of a number.
const MOST_DIGITS: usize = 9;

/// How many workers the text of `--workers` asks for: one if there is none.
pub fn workers(text: Option<&str>) -> Option<u32>
    ensures { result ≡ workers_of (option_map (λ s. s.now) text.entry) }
{
    match text {
        None => Some(1),
        Some(text) => number_within(text, 1, 64),
    }
}

/// The number that a text writes, if it lies between two bounds, both of them included.
pub fn number_within(text: &str, least: u32, most: u32) -> Option<u32>
    ensures { result ≡ number_within least most text.now }
{
    let n = number(text)?;
    if least <= n && n <= most {
        Some(n)
    } else {
        None
    }
}

/// The number that a text writes: one to nine decimal digits.
fn number(text: &str) -> Option<u32>
    ensures { result ≡ number_of text.now }
{
    if is_number(text.as_bytes()) {
        text.parse().ok()
    } else {
        None
    }
}

/// Whether a text is one to nine decimal digits.
fn is_number(text: &[u8]) -> bool
    ensures { result ≡ is_number text.now }
{
    !text.is_empty() && text.len() <= MOST_DIGITS && all_digits(text)
}

/// Whether each byte of a text is a decimal digit.
fn all_digits(text: &[u8]) -> bool
    ensures { result ≡ list_all is_ascii_digit text.now }
{
    text.iter().all(|b| b.is_ascii_digit())
}

/// The kind of report that the text of `--report` asks for: the whole graph if there is none.
pub fn report_kind(text: Option<&str>) -> Option<ReportKind>
    ensures { result ≡ report_kind_of (option_map (λ s. s.now) text.entry) }
{
    match text {
        None => Some(ReportKind::Graph),
        Some(word) => kind_named(word),
    }
}

/// The kind of report with this name.
fn kind_named(word: &str) -> Option<ReportKind>
    ensures { result ≡ kind_named word.now }
{
    match word {
        "graph" => Some(ReportKind::Graph),
        "functions" => Some(ReportKind::Functions),
        "blocks" => Some(ReportKind::Blocks),
        "edges" => Some(ReportKind::Edges),
        "live" => Some(ReportKind::Live),
        _ => None,
    }
}
