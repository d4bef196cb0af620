//! Lines of a ledger's script, and lines of no form.

use ledger_core::Mark;
use ledger_script::{LineFault, ScriptLine, line_of};
use std::alloc::Global;

/// What a line asks for, in a word.
fn word_of(alloc: Global, line: &[u8]) -> &'static str {
    match line_of(alloc, line) {
        Ok(ScriptLine::Enter { report, layers }) => match layers.items() {
            [] if report.text() == "r.txt" => "enter",
            [layer] if report.text() == "r.txt" && layer.text() == "nine.wkt" => "enter one",
            [first, second] if first.text() == "a.wkt" && second.text() == "b/é.dxf" => "enter two",
            _ => "enter others",
        },
        Ok(
            ScriptLine::Decide {
                run: 1,
                place: 0,
                mark: Mark::Kept,
            },
        ) => "decide 1 0 kept",
        Ok(
            ScriptLine::Decide {
                run: 4294967295,
                place: 4194303,
                mark: Mark::Mended,
            },
        ) => "decide last mended",
        Ok(ScriptLine::Decide { .. }) => "decide another",
        Ok(ScriptLine::List { run: 2 }) => "list 2",
        Ok(ScriptLine::List { .. }) => "list another",
        Ok(ScriptLine::Clear { run: 0 }) => "clear 0",
        Ok(ScriptLine::Clear { .. }) => "clear another",
        Err(LineFault::Bad) => "bad",
        Err(LineFault::NoMemory) => "no memory",
    }
}

#[derive(Clone, Copy)]
struct Row {
    line: &'static [u8],
    word: &'static str,
}

const ROWS: [Row; 28] = [
    Row {
        line: b"enter r.txt",
        word: "enter",
    },
    Row {
        line: b"enter r.txt nine.wkt",
        word: "enter one",
    },
    Row {
        line: b"enter r.txt a.wkt b/\xc3\xa9.dxf",
        word: "enter two",
    },
    Row {
        line: b"decide 1 0 kept",
        word: "decide 1 0 kept",
    },
    Row {
        line: b"decide 4294967295 4194303 mended",
        word: "decide last mended",
    },
    Row {
        line: b"list 2",
        word: "list 2",
    },
    Row {
        line: b"clear 0",
        word: "clear 0",
    },
    Row {
        line: b"",
        word: "bad",
    },
    Row {
        line: b"enter",
        word: "bad",
    },
    Row {
        line: b"enter ",
        word: "bad",
    },
    Row {
        line: b"enter  r.txt",
        word: "bad",
    },
    Row {
        line: b"enter r.txt ",
        word: "bad",
    },
    Row {
        line: b"enter r.txt  nine.wkt",
        word: "bad",
    },
    Row {
        line: b"enter r.txt\tnine.wkt",
        word: "bad",
    },
    Row {
        line: b"enter r\xff",
        word: "bad",
    },
    Row {
        line: b" enter r.txt",
        word: "bad",
    },
    Row {
        line: b"Enter r.txt",
        word: "bad",
    },
    Row {
        line: b"decide 1 x kept",
        word: "bad",
    },
    Row {
        line: b"decide 01 0 kept",
        word: "bad",
    },
    Row {
        line: b"decide 1 4294967296 kept",
        word: "bad",
    },
    Row {
        line: b"decide 1 0 keep",
        word: "bad",
    },
    Row {
        line: b"decide 1 0",
        word: "bad",
    },
    Row {
        line: b"decide 1 0 kept ",
        word: "bad",
    },
    Row {
        line: b"list",
        word: "bad",
    },
    Row {
        line: b"list -1",
        word: "bad",
    },
    Row {
        line: b"list 1 ",
        word: "bad",
    },
    Row {
        line: b"clear 1\r",
        word: "bad",
    },
    Row {
        line: b"lists 1",
        word: "bad",
    },
];

/// The number of the first row whose line asks for another thing, if any.
fn first_other(alloc: Global) -> Option<usize> {
    for at in 0..ROWS.len() {
        if word_of(alloc, ROWS[at].line) != ROWS[at].word {
            return Some(at);
        }
    }
    None
}

#[test]
fn lines_of_each_form_and_of_none(rt: HostRuntime) {
    assert_eq!(rt; first_other(rt.alloc()), None);
}
