//! Each certificate that a migration writes is accepted, and refused once one byte or number of it, or one byte of the
//! written layer, is another.

use crate::memory_runs::{NEVER, add_file, ends_over, ran_over, shelf_of};
use runs::Status;
use shelf_io::{MemPress, MemShelf};
use std::alloc::{AllocError, Global};
use tin_texts::{SQUARE, TRIANGLE};

/// The bytes with one of them changed to one that is in no certificate.
fn changed_at(alloc: Global, bytes: &[u8], at: usize) -> Result<Vec<u8>, AllocError> {
    let mut all = Vec::with_capacity(alloc, bytes.len())?;
    for (number, byte) in bytes.iter().enumerate() {
        all.push(if number == at { byte ^ 64 } else { *byte })?;
    }
    Ok(all)
}

/// The bytes with a 9 in front of the number that begins at this place.
fn greater_at(alloc: Global, bytes: &[u8], at: usize) -> Result<Vec<u8>, AllocError> {
    let mut all = Vec::new(alloc);
    for (number, byte) in bytes.iter().enumerate() {
        if number == at {
            all.push(b'9')?;
        }
        all.push(*byte)?;
    }
    Ok(all)
}

/// A layer, the triangulation through which it is carried, how it is named and carried, and the options that are
/// after the words of both runs.
struct CarriedLayer {
    tin: &'static str,
    layer: &'static str,
    job: &'static CertificateJob,
    options: &'static [&'static str],
}

/// The name of a layer, the words that carry it with a certificate, the names of the two files that are written, and the
/// words that verify these.
struct CertificateJob {
    name: &'static str,
    migrate: &'static [&'static str],
    written: &'static str,
    cert: &'static str,
    verify: &'static [&'static str],
}

/// The words with these options after them.
fn words_with(
    alloc: Global,
    words: &[&'static str],
    options: &[&'static str],
) -> Result<Vec<&'static str>, AllocError> {
    let mut all = Vec::from_slice(alloc, words)?;
    all.extend_from_slice(options)?;
    Ok(all)
}

/// A shelf of the layer and its triangulation.
fn way_shelf(alloc: Global, way: &CarriedLayer) -> Result<MemShelf, AllocError> {
    shelf_of(alloc, &[("t.json", way.tin), (way.job.name, way.layer)])
}

/// Such a shelf with a written layer and a certificate.
fn written_shelf(
    alloc: Global,
    way: &CarriedLayer,
    written: &[u8],
    cert: &[u8],
) -> Result<MemShelf, AllocError> {
    let mut shelf = way_shelf(alloc, way)?;
    add_file(&mut shelf, "w", written)?;
    add_file(&mut shelf, "c", cert)?;
    Ok(shelf)
}

/// Whether a verification of these bytes ends so and says this.
fn says(
    alloc: Global,
    way: &CarriedLayer,
    written: &[u8],
    cert: &[u8],
    status: Status,
    line: &str,
) -> Result<bool, AllocError> {
    let words = words_with(alloc, way.job.verify, way.options)?;
    let shelf = written_shelf(alloc, way, written, cert)?;
    ends_over(alloc, &words, shelf, status, &[("-", Some(line))])
}

/// Whether each byte of the certificate, once it is another, makes a bad line.
fn each_byte_is_refused(
    alloc: Global,
    way: &CarriedLayer,
    written: &[u8],
    cert: &[u8],
) -> Result<bool, AllocError> {
    let mut line = 1u32;
    for (at, byte) in cert.iter().enumerate() {
        let other = changed_at(alloc, cert, at)?;
        let said = format!(in alloc; "certificate: form at line {line}\n")?;
        if !says(alloc, way, written, &other, Status::Uncertified, &said)? {
            return Ok(false);
        }
        if *byte == b'\n' {
            line = line.saturating_add(1);
        }
    }
    Ok(true)
}

/// Whether each number of the certificate after its front, once it is another, makes a list that is not right or a bad
/// line.
fn each_number_is_refused(
    alloc: Global,
    way: &CarriedLayer,
    written: &[u8],
    cert: &[u8],
) -> Result<bool, AllocError> {
    let mut begins = false;
    for (at, byte) in cert.iter().enumerate() {
        if begins && byte.is_ascii_digit() {
            let other = greater_at(alloc, cert, at)?;
            if says(alloc, way, written, &other, Status::Same, "certified\n")? {
                return Ok(false);
            }
        }
        begins = !byte.is_ascii_digit();
    }
    Ok(true)
}

/// Whether each byte of the written layer, once it is another, is the first that differs.
fn each_other_layer_is_refused(
    alloc: Global,
    way: &CarriedLayer,
    written: &[u8],
    cert: &[u8],
) -> Result<bool, AllocError> {
    for at in 0..written.len() {
        let other = changed_at(alloc, written, at)?;
        let said = format!(in alloc; "certificate: differs at {at}\n")?;
        if !says(alloc, way, &other, cert, Status::Uncertified, &said)? {
            return Ok(false);
        }
    }
    Ok(true)
}

/// Whether the certificate of the written layer is accepted, and each change is refused.
fn each_change_is_refused(
    alloc: Global,
    way: &CarriedLayer,
    written: &[u8],
    cert: &[u8],
) -> Result<bool, AllocError> {
    Ok(
        says(alloc, way, written, cert, Status::Same, "certified\n")?
            && each_byte_is_refused(alloc, way, written, cert)?
            && each_number_is_refused(alloc, way, written, cert)?
            && each_other_layer_is_refused(alloc, way, written, cert)?,
    )
}

/// How a migration of the layer with a certificate ends, and what it makes.
fn migrate_layer(alloc: Global, way: &CarriedLayer) -> Result<(Status, MemPress), AllocError> {
    let words = words_with(alloc, way.job.migrate, way.options)?;
    let shelf = way_shelf(alloc, way)?;
    ran_over(alloc, &words, shelf, 4096, NEVER)
}

/// Whether the layer is carried, its certificate is accepted, and each change is refused.
fn is_certified(alloc: Global, way: &CarriedLayer) -> Result<bool, AllocError> {
    let (status, press) = migrate_layer(alloc, way)?;
    if status != Status::Same && status != Status::Changed {
        return Ok(false);
    }
    match (
        press.made_bytes(way.job.written),
        press.made_bytes(way.job.cert),
    ) {
        (Some(written), Some(cert)) => each_change_is_refused(alloc, way, written, cert),
        _ => Ok(false),
    }
}

/// A collection with a line across the diagonal, a polygon and a feature without a place.
const COLLECTION: &str = concat!(
    r#"{"type":"FeatureCollection","features":[{"type":"Feature","properties":{},"#,
    r#""geometry":{"type":"LineString","coordinates":[[10,0],[0,10]]}},"#,
    r#"{"type":"Feature","properties":null,"#,
    r#""geometry":{"type":"Polygon","coordinates":[[[1,1],[9,1],[9,9],[1,1]]]}},"#,
    r#"{"type":"Feature","properties":null,"geometry":null}]}"#
);

/// A drawing of one line across the diagonal.
const DRAWING: &str =
    "  0\nSECTION\n  2\nENTITIES\n  0\nLINE\n  8\nPARCEL\n 10\n10.0\n 20\n0.0\n 11\n0.0\n 21\n10.0\n  0\nENDSEC\n  0\nEOF\n";

/// A layer of well-known text.
const WKT: CertificateJob = CertificateJob {
    name: "l.wkt",
    migrate: &[
        "migrate", "--tin", "t.json", "--out", "o", "--cert", "l.wkt",
    ],
    written: "o/l.wkt",
    cert: "o/l.wkt.cert",
    verify: &[
        "verify",
        "--tin",
        "t.json",
        "--source",
        "l.wkt",
        "--written",
        "w",
        "--cert",
        "c",
    ],
};

/// One of GeoJSON.
const GEOJSON: CertificateJob = CertificateJob {
    name: "l.geojson",
    migrate: &[
        "migrate",
        "--tin",
        "t.json",
        "--out",
        "o",
        "--cert",
        "l.geojson",
    ],
    written: "o/l.geojson",
    cert: "o/l.geojson.cert",
    verify: &[
        "verify",
        "--tin",
        "t.json",
        "--source",
        "l.geojson",
        "--written",
        "w",
        "--cert",
        "c",
    ],
};

/// A drawing.
const DXF: CertificateJob = CertificateJob {
    name: "l.dxf",
    migrate: &[
        "migrate", "--tin", "t.json", "--out", "o", "--cert", "l.dxf",
    ],
    written: "o/l.dxf",
    cert: "o/l.dxf.cert",
    verify: &[
        "verify",
        "--tin",
        "t.json",
        "--source",
        "l.dxf",
        "--written",
        "w",
        "--cert",
        "c",
    ],
};

/// The layers, each with its triangulation and words.
const WAYS: &[CarriedLayer] = &[
    CarriedLayer {
        tin: SQUARE,
        layer: "LINESTRING (10 0, 0 10)",
        job: &WKT,
        options: &[],
    },
    CarriedLayer {
        tin: SQUARE,
        layer: "LINESTRING (0 0, 10 10)",
        job: &WKT,
        options: &[],
    },
    CarriedLayer {
        tin: SQUARE,
        layer: "LINESTRING (1 1, 1 1, 2 1)\nPOINT (6 4)\n",
        job: &WKT,
        options: &[],
    },
    CarriedLayer {
        tin: SQUARE,
        layer: "POLYGON ((1 1, 9 1, 9 9, 1 9, 1 1), (4 3, 3 4, 6 6, 4 3))",
        job: &WKT,
        options: &[],
    },
    CarriedLayer {
        tin: SQUARE,
        layer: "POINT (5 5)",
        job: &WKT,
        options: &[],
    },
    CarriedLayer {
        tin: SQUARE,
        layer: "POINT EMPTY\n",
        job: &WKT,
        options: &[],
    },
    CarriedLayer {
        tin: TRIANGLE,
        layer: "MULTIPOINT (5 0, (0 0), EMPTY)",
        job: &WKT,
        options: &[],
    },
    CarriedLayer {
        tin: SQUARE,
        layer: COLLECTION,
        job: &GEOJSON,
        options: &[],
    },
    CarriedLayer {
        tin: SQUARE,
        layer: DRAWING,
        job: &DXF,
        options: &[],
    },
    // carried back, and then without a number that is rounded
    CarriedLayer {
        tin: SQUARE,
        layer: "POINT (100 110)",
        job: &WKT,
        options: &["--inverse"],
    },
    CarriedLayer {
        tin: SQUARE,
        layer: "LINESTRING (110 100, 100 110)",
        job: &WKT,
        options: &["--inverse", "--exact"],
    },
];

/// The first of the layers whose certificate, or a change of it, is answered otherwise, or none.
fn first_other(alloc: Global, ways: &[CarriedLayer]) -> Result<Option<&'static str>, AllocError> {
    for way in ways {
        if !is_certified(alloc, way)? {
            return Ok(Some(way.layer));
        }
    }
    Ok(None)
}

#[test]
fn each_change_of_a_certificate_is_refused(rt: HostRuntime) {
    assert_eq!(rt; first_other(rt.alloc(), WAYS), Ok(None));
}
