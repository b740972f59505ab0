//! What ended a run, in words for the person at the terminal.

/// The number of the line at which the run stopped, and its code or limit, as `stop STATUS LINE NUMBER` tells them.
#[derive(Drop)]
pub(crate) struct StopWords<'a> {
    pub(crate) line: &'a str,
    pub(crate) number: &'a str,
}

/// Reads the line that says why a run stopped.
pub(crate) fn stop_words(line: &str) -> Option<StopWords> {
    let mut words = line.trim_end().split(' ').skip(2);
    let line = words.next()?;
    let number = words.next()?;
    Some(StopWords { line, number })
}

/// What is wrong with a line of the script, by its code.
pub(crate) fn code_text(code: &str) -> &'static str {
    match code {
        "1" => "it begins with no command",
        "2" => "a word is missing",
        "3" => "there is a word too many",
        "4" => "a word isn't a number of its range",
        "5" =>
            "a word isn't the name of a node, a table or a column, or is no scheme, kind or choice",
        "6" => "a word isn't the id of a row",
        "7" => "a word isn't a value, or a cell column stands behind an object column",
        "8" => "what it names isn't declared",
        "9" => "what it declares is declared already",
        "10" => "it isn't UTF-8",
        "11" => "it declares something behind the first command",
        "12" => "it has a form that isn't built yet",
        _ => "it is in no grammar",
    }
}

/// What passes a limit, by the limit's number.
pub(crate) fn limit_text(limit: &str) -> &'static str {
    match limit {
        "1" => "the script has more than 67,108,864 bytes",
        "2" => "the script has more than 1,048,576 lines",
        "3" => "the line has more than 34,603,008 bytes",
        "4" => "a table's number is above 64",
        "5" => "a client's number is above 64",
        "6" => "a gateway's number is above 16",
        "7" => "a Store's number is above 16",
        "8" => "a table has more than 32 columns",
        "9" => "the script names more than 65,536 rows of one table",
        "10" => "the packets have more than 268,435,456 bytes",
        _ => "the script passes a limit",
    }
}

/// What ended a run whose status says all.
pub(crate) fn status_text(status: u8) -> &'static str {
    match status {
        4 => "the script can't be read to its end: standard input failed",
        5 => "the output can't be written: standard output failed",
        6 => "there is no more memory",
        8 => "a disk can't be had: the depot failed",
        _ => "the run ended early",
    }
}
