//! The options that modifiers set, by the names that pcre2test has for them.

use pat_tree::{Bsr, Newline, Options};

// What ends lines, by its name.
fn newline_of(name: &str) -> Option<Newline> {
    match name {
        "cr" => Some(Newline::Cr),
        "lf" => Some(Newline::Lf),
        "crlf" => Some(Newline::CrLf),
        "anycrlf" => Some(Newline::AnyCrLf),
        "any" => Some(Newline::Any),
        "nul" => Some(Newline::Nul),
        _ => None,
    }
}

fn bsr_of(name: &str) -> Option<Bsr> {
    match name {
        "unicode" => Some(Bsr::Unicode),
        "anycrlf" => Some(Bsr::AnyCrLf),
        _ => None,
    }
}

// The options with a modifier that has a value.
fn with_value(options: Options, name: &str, value: &str) -> Option<Options> {
    let mut options = options;
    match name {
        "newline" => options.newline = newline_of(value)?,
        "bsr" => options.bsr = bsr_of(value)?,
        "match_limit" => options.match_limit = Some(value.parse().ok()?),
        _ => return None,
    }
    Some(options)
}

// The options with one that has no value.
fn with_flag(options: Options, name: &str) -> Option<Options> {
    let mut options = options;
    match name {
        "caseless" => options.caseless = true,
        "multiline" => options.multiline = true,
        "dotall" => options.dotall = true,
        "extended" => options.extended = true,
        "extended_more" => options.extended_more = true,
        "dollar_endonly" => options.dollar_endonly = true,
        "dupnames" => options.dupnames = true,
        "literal" => options.literal = true,
        "no_auto_capture" => options.no_auto_capture = true,
        "ungreedy" => options.ungreedy = true,
        "utf" => options.utf = true,
        "ucp" => options.ucp = true,
        "allow_empty_class" => options.allow_empty_class = true,
        "no_start_optimize" => options.no_start_optimize = true,
        "auto_callout" => options.auto_callout = true,
        "notempty" => options.notempty = true,
        "notempty_atstart" => options.notempty_atstart = true,
        _ => return None,
    }
    Some(options)
}

/// The options of modifiers with commas between them. None where one isn't known.
pub fn options_of(modifiers: &str) -> Option<Options> {
    let mut options = Options::PLAIN;
    for modifier in modifiers.split(',') {
        options = match modifier.split_once('=') {
            Some((name, value)) => with_value(options, name, value)?,
            None if modifier.is_empty() => options,
            None => with_flag(options, modifier)?,
        };
    }
    Some(options)
}
