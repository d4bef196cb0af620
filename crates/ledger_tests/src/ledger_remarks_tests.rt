//! What is said of lines of no form, and of files that a line names.

use ledger_remarks::{
    LineFlaw, finding_of, flaw_lines, other_layers_lines, unread_lines, unread_script_lines,
    wrong_report_lines,
};

#[derive(Clone, Copy)]
struct Row {
    line: &'static [u8],
    flaw: LineFlaw,
    column: usize,
    found: &'static str,
}

fn flaw_row(line: &'static [u8], flaw: LineFlaw, column: usize, found: &'static str) -> Row {
    Row {
        line,
        flaw,
        column,
        found,
    }
}

/// The place of the first row of another finding.
fn first_other() -> Option<usize> {
    let rows = [
        flaw_row(b"\xef\xbb\xbfclear 1", LineFlaw::ByteOrderMark, 1, ""),
        flaw_row(b"clear 1\r", LineFlaw::CarriageReturn, 8, ""),
        flaw_row(b"clear\t1", LineFlaw::Control, 6, ""),
        flaw_row(b" clear 1", LineFlaw::Space, 1, ""),
        flaw_row(b"clear 1 ", LineFlaw::Space, 8, ""),
        flaw_row(b"clear  1", LineFlaw::Space, 6, ""),
        flaw_row(b"enter r\xff.txt", LineFlaw::Utf8, 8, ""),
        flaw_row(b"Clear 1", LineFlaw::Word, 1, "Clear"),
        flaw_row(b"# clear 1", LineFlaw::Word, 1, "#"),
        flaw_row(b"clearing 1", LineFlaw::Word, 1, "clearing"),
        flaw_row(b"enter", LineFlaw::Missing, 6, ""),
        flaw_row(b"clear", LineFlaw::Missing, 6, ""),
        flaw_row(b"clear x", LineFlaw::Number, 7, "x"),
        flaw_row(b"clear 01", LineFlaw::Number, 7, "01"),
        flaw_row(b"list 4294967296", LineFlaw::Number, 6, "4294967296"),
        flaw_row(b"list 1 2", LineFlaw::Further, 8, "2"),
        flaw_row(b"decide", LineFlaw::Missing, 7, ""),
        flaw_row(b"decide 1", LineFlaw::Missing, 9, ""),
        flaw_row(b"decide 1 0", LineFlaw::Missing, 11, ""),
        flaw_row(b"decide one 0 kept", LineFlaw::Number, 8, "one"),
        flaw_row(b"decide 1 x kept", LineFlaw::Number, 10, "x"),
        flaw_row(b"decide 1 0 keep", LineFlaw::Mark, 12, "keep"),
        flaw_row(b"decide 1 0 Mended", LineFlaw::Mark, 12, "Mended"),
        flaw_row(b"decide 1 0 kept 1", LineFlaw::Further, 17, "1"),
    ];
    rows.iter().position(|row| {
        let found = finding_of(row.line);
        found.flaw != row.flaw || found.column != row.column || found.found != row.found
    })
}

#[test]
fn flaws_of_lines(rt: HostRuntime) {
    assert_eq!(rt; first_other(), None);
}

#[test]
fn lines_of_standard_error(rt: HostRuntime) {
    let Ok(text) = flaw_lines(rt.alloc(), "a\tscript", 3, finding_of(b"decide 1 x kept")) else {
        panic!(rt; "no memory");
    };
    assert_eq!(rt;
        text.as_str(),
        "tinledger: a\\x09script:3:10: no number in digits below 4294967296: x\ntinledger: no line was obeyed; \
         a run is a number from 1, a place one from 0, without leading zeros\n"
    );
    let Ok(text) = flaw_lines(rt.alloc(), "script", 1, finding_of(b"clear 1\r")) else {
        panic!(rt; "no memory");
    };
    assert_eq!(rt;
        text.as_str(),
        "tinledger: script:1:8: a carriage return at the end of the line\ntinledger: no line was obeyed; \
         carriage returns are removed by: sed -i 's/\\r$//'\n"
    );
    let Ok(text) = unread_lines(
        rt.alloc(),
        "script",
        2,
        "none.wkt",
        "No such file or directory",
    ) else {
        panic!(rt; "no memory");
    };
    assert_eq!(rt;
        text.as_str(),
        "tinledger: script:2: none.wkt: the system says: No such file or directory\ntinledger: no line was obeyed\n"
    );
    let Ok(text) = unread_script_lines(rt.alloc(), "script", "Is a directory") else {
        panic!(rt; "no memory");
    };
    assert_eq!(rt;
        text.as_str(),
        "tinledger: script: the system says: Is a directory\n"
    );
    let Ok(text) = wrong_report_lines(rt.alloc(), "script", 2, "r.txt", 7) else {
        panic!(rt; "no memory");
    };
    assert_eq!(rt;
        text.as_str(),
        "tinledger: script:2: r.txt:7: no such line is in a report\ntinledger: no line was obeyed; \
         a report is what tinmove migrate prints, whole\n"
    );
    let Ok(text) = other_layers_lines(rt.alloc(), "script", 2, "r.txt") else {
        panic!(rt; "no memory");
    };
    assert_eq!(rt;
        text.as_str(),
        "tinledger: script:2: r.txt: the report has another number of layers than this line\n\
         tinledger: no line was obeyed; each written layer is named behind its report, in the report's order\n"
    );
}
