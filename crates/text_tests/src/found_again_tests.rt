//! Lines for standard error that say what is found in a file once more, and those of runs that write no files.

use cert_check::CertFault;
use remarks::{
    KindCount, blocks_line, border_line, corner_line, long_layer_lines, no_triangles_line,
    other_kinds_line, owner_line, refusal_remarks, turned_line,
};
use runs::Refusal;
use std::alloc::AllocError;

#[test]
fn says_that_nothing_was_written_of_runs_that_write(rt: HostRuntime) -> Result<(), AllocError> {
    let refusal = Refusal::Certificate(CertFault::Differs { at: 3 });
    let of_check = refusal_remarks(rt.alloc(), &refusal, "b.wkt", None, false)?;
    assert_eq!(rt;
        of_check.as_str(),
        "tinmove: b.wkt: at byte 3: the written layer is another than that of the source from here on
tinmove: take the layer as it was written
"
    );
    let of_run = refusal_remarks(rt.alloc(), &refusal, "b.wkt", None, true)?;
    assert_eq!(rt;
        of_run.as_str(),
        "tinmove: b.wkt: at byte 3: the written layer is another than that of the source from here on
tinmove: nothing was written; take the layer as it was written
"
    );
    Ok(())
}

#[test]
fn says_how_large_layers_and_blocks_are(rt: HostRuntime) -> Result<(), AllocError> {
    let blocks = blocks_line(rt.alloc(), "plan.dxf", 2, Some(9434))?;
    assert_eq!(rt;
        blocks.as_str(),
        "tinmove: plan.dxf: 2 inserts: a block is moved to its new place, and what is in it keeps its shape, \
         up to 9434 metres from there: explode blocks that are wide\n"
    );
    // 64 MiB are 67,108,864 bytes.
    let together = long_layer_lines(rt.alloc(), "b.wkt", 60_000_000, 10_000_000)?;
    assert_eq!(rt;
        together.as_str(),
        "tinmove: b.wkt: 60000000 bytes, behind 10000000 of the layers before it\n"
    );
    let at_limit = long_layer_lines(rt.alloc(), "b.wkt", 67_108_864, 1)?;
    assert_eq!(rt;
        at_limit.as_str(),
        "tinmove: b.wkt: 67108864 bytes, behind 1 of the layers before it\n"
    );
    let alone = long_layer_lines(rt.alloc(), "b.wkt", 67_108_865, 0)?;
    assert_eq!(rt;
        alone.as_str(),
        "tinmove: b.wkt: 67108865 bytes, behind 0 of the layers before it
tinmove: it is too large alone: recipes/geopackage.py carries a layer in strips
"
    );
    let owner = owner_line(rt.alloc(), "o/a.wkt")?;
    assert_eq!(rt;
        owner.as_str(),
        "tinmove: the output o/a.wkt has another owner or group than before: the system did not let them be kept\n"
    );
    Ok(())
}

#[test]
fn names_kinds_that_are_not_carried(rt: HostRuntime) -> Result<(), AllocError> {
    let mut kinds = Vec::new(rt.alloc());
    for (name, count) in [("HATCH", 276_u64), ("MTEXT", 12)] {
        kinds.push(KindCount {
            name: String::from_str(rt.alloc(), name)?,
            count,
        })?;
    }
    let text = other_kinds_line(rt.alloc(), "plan.dxf", &kinds, 3)?;
    assert_eq!(rt;
        text.as_str(),
        "tinmove: plan.dxf: all kinds that are not carried (HATCH 276, MTEXT 12, and 3 more)\n"
    );
    Ok(())
}

#[test]
fn says_of_triangles_what_is_wrong(rt: HostRuntime) -> Result<(), AllocError> {
    let corner = corner_line(
        rt.alloc(),
        5,
        3,
        "[600000, 200000, 2600000, 1200000, \"LFP\"]",
    )?;
    assert_eq!(rt;
        corner.as_str(),
        "tinmove: triangle 5 has row 3 of vertices: [600000, 200000, 2600000, 1200000, \"LFP\"]\n"
    );
    let some = turned_line(rt.alloc(), 3, 3840)?;
    assert_eq!(rt;
        some.as_str(),
        "tinmove: turned over: 3 of 3840 triangles: the corner that they have in common is most often wrong\n"
    );
    let all = turned_line(rt.alloc(), 3840, 3840)?;
    assert_eq!(rt;
        all.as_str(),
        "tinmove: turned over: 3840 of 3840: are x and y exchanged in one of the frames?\n"
    );
    let whole = border_line(rt.alloc(), "t.json", 1, 0)?;
    assert_eq!(rt;
        whole.as_str(),
        "tinmove: t.json: outer rings of the border: 1, holes: 0\n"
    );
    let torn = border_line(rt.alloc(), "t.json", 1, 1)?;
    assert_eq!(rt;
        torn.as_str(),
        "tinmove: t.json: outer rings of the border: 1, holes: 1: is a row missing?\n"
    );
    let none = no_triangles_line(rt.alloc(), "t.json")?;
    assert_eq!(rt;
        none.as_str(),
        "tinmove: t.json: it has no triangles: no layer can be carried by it\n"
    );
    Ok(())
}
