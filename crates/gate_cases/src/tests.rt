//! What no clause says of `batch`, and its answer for several numbers of workers.

ghost use Rattle.std.specs.Prelude.{◌≤◌, length};

use crate::both::Both;
use cif_base::Text;
use cif_batch::{CaseErr, Gate, NoGate, batch, read_cases};
use cif_io::{MemFile, MemFiles, MemSink};
use cif_replay::program_of;
use cif_tool::{Status, tool};
use plc_rows::RowErr;
use st_scan::ScanErr;
use std::alloc::Global;
use std::thread::Threads;

/// A program that shows its input; its output takes no more than 3.
const PROGRAM: &[u8] =
    b"PROGRAM p VAR_INPUT a : LINT (0..9); END_VAR VAR_OUTPUT y : LINT (0..3); END_VAR y := a; END_PROGRAM";

/// What `batch` returns for a text of cases, read by as many workers.
fn answer<R: Threads + Sync, G: Gate + Sync>(
    rt: &R,
    alloc: Global,
    text: &[u8],
    workers: u32,
    gate: &G,
) -> Result<Vec<Text>, CaseErr>
    requires workers { (1 ≤ workers) × (workers ≤ 64) }
    requires size { length text.now ≤ 67108864 }
{
    let Ok(program) = program_of(alloc, PROGRAM) else {
        return Err(CaseErr::Memory);
    };
    let Ok(cases) = read_cases(rt, alloc, text, &program, workers) else {
        return Err(CaseErr::Memory);
    };
    batch(rt, alloc, &program, &cases, workers, gate)
}

#[test]
fn two_cases_are_at_work_at_once(rt: HostRuntime) -> Result<(), std::test::Fail> {
    let gate = Both::new();
    let texts = answer(&rt, rt.alloc(), b"scan,a\n1,1\n1,3\n", 2, &gate)?;
    assert!(rt; gate.is_passed());
    assert_eq!(rt; texts.len(), 2);
    assert_eq!(rt; texts[0].as_slice(), b"scan,y\n1,1\n".as_slice());
    assert_eq!(rt; texts[1].as_slice(), b"scan,y\n1,3\n".as_slice());
    Ok(())
}

#[test]
fn one_worker_does_not_pass_the_gate(rt: HostRuntime) -> Result<(), std::test::Fail> {
    let gate = Both::new();
    let texts = answer(&rt, rt.alloc(), b"scan,a\n1,1\n1,3\n", 1, &gate)?;
    assert!(rt; !gate.is_passed());
    assert_eq!(rt; texts.len(), 2);
    Ok(())
}

#[test]
fn two_cases_of_the_command_are_at_work_at_once(rt: HostRuntime) -> Result<(), std::test::Fail> {
    let alloc = rt.alloc();
    let gate = Both::new();
    let mut files = Vec::new(alloc);
    files.push(MemFile {
        name: Text::from_vec(Vec::from_slice(alloc, b"p.st")?),
        bytes: Text::from_vec(Vec::from_slice(alloc, PROGRAM)?),
    })?;
    files.push(MemFile {
        name: Text::from_vec(Vec::from_slice(alloc, b"c.csv")?),
        bytes: Text::from_vec(Vec::from_slice(alloc, b"scan,a\n1,1\n1,3\n")?),
    })?;
    let mut files = MemFiles::new(alloc, files, Vec::new(alloc))?;
    let mut words = Vec::new(alloc);
    for word in ["batch", "p.st", "c.csv"] {
        words.push(String::from_str(alloc, word)?)?;
    }
    let mut out = MemSink::new(alloc, 16, Vec::new(alloc));
    let mut err = MemSink::new(alloc, 16, Vec::new(alloc));
    let status = tool(
        &rt,
        alloc,
        words.as_slice(),
        &mut files,
        &mut out,
        &mut err,
        &gate,
    );
    assert!(rt; matches!(status, Status::Done));
    assert!(rt; gate.is_passed());
    assert_eq!(rt; out.as_slice(), b"scan,y\n1,1\nscan,y\n1,3\n".as_slice());
    Ok(())
}

/// Ten cases, of one row to ten.
const TEN: &[u8] =
    b"scan,a\n1,0\n1,1\n2,2\n1,3\n2,0\n3,1\n1,2\n2,3\n3,0\n4,1\n1,2\n2,3\n3,0\n4,1\n5,2\n1,3\n2,3\n3,3\n4,3\n5,3\n6,3\n1,0\n2,0\n3,0\n4,0\n5,0\n6,0\n7,0\n1,1\n2,0\n3,1\n4,0\n5,1\n6,0\n7,1\n8,0\n1,2\n2,2\n3,2\n4,1\n5,1\n6,1\n7,0\n8,0\n9,0\n1,3\n2,2\n3,1\n4,0\n5,3\n6,2\n7,1\n8,0\n9,3\n10,2\n";

/// Their tables.
const TABLES: [&[u8]; 10] = [
    b"scan,y\n1,0\n",
    b"scan,y\n1,1\n2,2\n",
    b"scan,y\n1,3\n2,0\n3,1\n",
    b"scan,y\n1,2\n2,3\n3,0\n4,1\n",
    b"scan,y\n1,2\n2,3\n3,0\n4,1\n5,2\n",
    b"scan,y\n1,3\n2,3\n3,3\n4,3\n5,3\n6,3\n",
    b"scan,y\n1,0\n2,0\n3,0\n4,0\n5,0\n6,0\n7,0\n",
    b"scan,y\n1,1\n2,0\n3,1\n4,0\n5,1\n6,0\n7,1\n8,0\n",
    b"scan,y\n1,2\n2,2\n3,2\n4,1\n5,1\n6,1\n7,0\n8,0\n9,0\n",
    b"scan,y\n1,3\n2,2\n3,1\n4,0\n5,3\n6,2\n7,1\n8,0\n9,3\n10,2\n",
];

#[test]
fn each_number_of_workers_gives_one_list(rt: HostRuntime) -> Result<(), std::test::Fail> {
    for workers in [1, 2, 3, 64] {
        let texts = answer(&rt, rt.alloc(), TEN, workers, &NoGate)?;
        assert_eq!(rt; texts.len(), 10);
        for (text, table) in texts.iter().zip(TABLES) {
            assert_eq!(rt; text.as_slice(), table);
        }
    }
    Ok(())
}

#[test]
fn each_number_of_workers_tells_the_first_case(rt: HostRuntime) -> Result<(), std::test::Fail> {
    for workers in [1, 2, 3, 64] {
        let text: &[u8] = b"scan,a\n1,1\n1,2\n2,5\n1,9\n1,0\n";
        let told = match answer(&rt, rt.alloc(), text, workers, &NoGate) {
            Ok(_) => CaseErr::Memory,
            Err(error) => error,
        };
        let fault = ScanErr::SubrangeLeft {
            variable: 1,
            value: 5,
        };
        assert_eq!(rt;
            told,
            CaseErr::Fault {
                case: 2,
                row: 2,
                error: fault
            }
        );
    }
    Ok(())
}

#[test]
fn no_case_has_no_table(rt: HostRuntime) -> Result<(), std::test::Fail> {
    let texts = answer(&rt, rt.alloc(), b"scan,a\n", 4, &NoGate)?;
    assert!(rt; texts.is_empty());
    Ok(())
}

/// Two cases, in texts of other forms: with carriage returns, a byte order mark, quotes, the column `scan` behind another, a blank line, and
/// without a last line feed.
const FORMS: [&[u8]; 6] = [
    b"scan,a\r\n1,1\r\n2,2\r\n1,3\r\n",
    b"\xEF\xBB\xBFscan,a\n1,1\n2,2\n1,3\n",
    b"\"scan\",a\n1,1\n\"2\",2\n\"1\",3\n",
    b"a,scan\n1,1\n2,2\n3,1\n",
    b"scan,a\n1,1\n2,2\n\n1,3\n",
    b"scan,a\n1,1\n2,2\n1,3",
];

#[test]
fn each_form_of_text_gives_its_cases(rt: HostRuntime) -> Result<(), std::test::Fail> {
    for text in FORMS {
        for workers in [1, 2, 4] {
            let texts = answer(&rt, rt.alloc(), text, workers, &NoGate)?;
            assert_eq!(rt; texts.len(), 2);
            assert_eq!(rt; texts[0].as_slice(), b"scan,y\n1,1\n2,2\n".as_slice());
            assert_eq!(rt; texts[1].as_slice(), b"scan,y\n1,3\n".as_slice());
        }
    }
    Ok(())
}

/// Why workers read no cases from a text; `None` if they read some.
fn refused<R: Threads + Sync>(rt: &R, alloc: Global, text: &[u8], workers: u32) -> Option<RowErr>
    requires workers { 1 ≤ workers }
    requires size { length text.now ≤ 67108864 }
{
    let Ok(program) = program_of(alloc, PROGRAM) else {
        return Some(RowErr::Memory);
    };
    read_cases(rt, alloc, text, &program, workers).err()
}

#[test]
fn each_number_of_workers_refuses_the_same(rt: HostRuntime) -> Result<(), std::test::Fail> {
    let last_row: &[u8] = b"scan,a\n1,1\n2,2\n1,3\n3,3\n";
    let last_cell: &[u8] = b"scan,a\n1,1\n1,2\n1,3\n1,10\n";
    let last_length: &[u8] = b"scan,a\n1,1\n1,2\n1,3\n1\n";
    let header: &[u8] = b"scan,b\n1,1\n1,2\n";
    for workers in [1, 2, 3, 64] {
        let alloc = rt.alloc();
        assert_eq!(rt;
            refused(&rt, alloc, last_row, workers),
            Some(RowErr::CaseBoundary { row: 4 })
        );
        assert_eq!(rt;
            refused(&rt, alloc, last_cell, workers),
            Some(RowErr::Cell { row: 4, column: 2 })
        );
        assert_eq!(rt;
            refused(&rt, alloc, last_length, workers),
            Some(RowErr::RowLength { row: 4 })
        );
        assert_eq!(rt;
            refused(&rt, alloc, header, workers),
            Some(RowErr::Header { column: 2 })
        );
    }
    Ok(())
}
