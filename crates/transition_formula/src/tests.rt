use super::*;
use lin_rows::RowsView;
use std::alloc::{AllocError, Global};
use std::test::Fail;
use thr_base::{EdgeNo, ThreadNo};

/// The row at a place is this one.
fn is_row(
    rows: &RowsView<'_>,
    place: u32,
    equal: bool,
    coefficients: &[i128],
    bound: i128,
) -> bool {
    if place < rows.count() {
        let row = rows.row(place);
        row.equal == equal && row.coefficients == coefficients && row.bound == bound
    } else {
        false
    }
}

fn is_equality(rows: &RowsView<'_>, place: u32, coefficients: &[i128], bound: i128) -> bool {
    is_row(rows, place, true, coefficients, bound)
}

#[test]
fn initial_rows_of_two_threads(rt: HostRuntime) -> Result<(), Fail> {
    let program = two_threads(rt.alloc())?;
    let rows = init_rows(rt.alloc(), &program)?;
    let rows = rows.view();
    assert_eq!(rt; rows.count(), 3);
    assert!(rt; is_equality(&rows, 0, &[1, 0, 0, 0], 0));
    assert!(rt; is_equality(&rows, 1, &[0, 0, 1, 0], 1));
    assert!(rt; is_equality(&rows, 2, &[0, 0, 0, 1], 1));
    Ok(())
}

#[test]
fn rows_of_an_edge_with_a_test_and_an_input(rt: HostRuntime) -> Result<(), Fail> {
    let program = two_threads(rt.alloc())?;
    let rows = edge_rows(rt.alloc(), &program, ThreadNo(1), EdgeNo(1))?;
    let rows = rows.view();
    assert_eq!(rt; (rows.columns(), rows.count()), (9, 6));
    assert!(rt; is_equality(&rows, 0, &[0, 0, 1, 0, 0, 0, 0, 0, 0], 1));
    assert!(rt; is_equality(&rows, 1, &[0, 0, 0, 0, 0, 0, 1, 0, 0], 2));
    assert!(rt; is_equality(&rows, 2, &[-1, 0, 0, 0, 1, 0, 0, 0, 0], 0));
    assert!(rt; is_equality(&rows, 3, &[0, 0, 0, -1, 0, 0, 0, 1, 0], 0));
    assert!(rt; is_equality(&rows, 5, &[-1, 0, 0, 0, 0, 1, 0, 0, 1], 3));
    assert!(rt; is_row(&rows, 4, false, &[2, 0, 0, 0, 0, 0, 0, 0, 5], 7));
    Ok(())
}

#[test]
fn rows_of_an_edge_of_the_second_thread(rt: HostRuntime) -> Result<(), Fail> {
    let program = two_threads(rt.alloc())?;
    let rows = edge_rows(rt.alloc(), &program, ThreadNo(2), EdgeNo(1))?;
    let rows = rows.view();
    assert_eq!(rt; (rows.columns(), rows.count()), (8, 5));
    assert!(rt; is_equality(&rows, 0, &[0, 0, 0, 1, 0, 0, 0, 0], 1));
    assert!(rt; is_equality(&rows, 1, &[0, 0, 0, 0, 0, 0, 0, 1], 2));
    assert!(rt; is_equality(&rows, 2, &[0, -1, 0, 0, 0, 1, 0, 0], 0));
    assert!(rt; is_equality(&rows, 3, &[0, 0, -1, 0, 0, 0, 1, 0], 0));
    assert!(rt; is_equality(&rows, 4, &[-1, 0, 0, 0, 1, 0, 0, 0], 1));
    Ok(())
}

#[test]
fn rows_that_all_threads_see_of_an_edge(rt: HostRuntime) -> Result<(), Fail> {
    let program = two_threads(rt.alloc())?;
    let rows = seen_rows(rt.alloc(), &program, ThreadNo(2), EdgeNo(1))?;
    let rows = rows.view();
    assert_eq!(rt; (rows.columns(), rows.count()), (8, 4));
    assert!(rt; is_equality(&rows, 0, &[0, 0, 0, 1, 0, 0, 0, 0], 1));
    assert!(rt; is_equality(&rows, 1, &[0, 0, 0, 0, 0, 0, 0, 1], 2));
    assert!(rt; is_equality(&rows, 2, &[0, -1, 0, 0, 0, 1, 0, 0], 0));
    assert!(rt; is_equality(&rows, 3, &[0, 0, -1, 0, 0, 0, 1, 0], 0));
    Ok(())
}

#[test]
fn parts_of_a_program(rt: HostRuntime) -> Result<(), Fail> {
    let program = two_threads(rt.alloc())?;
    assert_eq!(rt; (program.columns(), program.threads()), (4, 2));
    assert!(rt; program.column(1).text.as_slice() == b"t1.l".as_slice());
    assert!(rt; program.column(1).start == None && program.column(0).start == Some(0));
    assert!(rt; program.owner(0) == None && program.owner(3) == Some(ThreadNo(2)));
    assert_eq!(rt; program.locations(ThreadNo(1)), 3);
    assert_eq!(rt; program.counter(ThreadNo(2)), 3);
    assert_eq!(rt; program.edges(ThreadNo(2)).len(), 1);
    assert_eq!(rt; program.edge(ThreadNo(1), EdgeNo(1)).inputs, 1);
    assert!(rt; program.keeps(ThreadNo(1), EdgeNo(1), 0));
    assert!(rt; !program.keeps(ThreadNo(1), EdgeNo(1), 1));
    Ok(())
}

/// The text is that of the atom with these numbers: it is read as it, and printed for it.
fn is_text_of(
    alloc: Global,
    program: &Program,
    text: &[u8],
    env: bool,
    coefficients: &[i128],
    bound: i128,
) -> Result<bool, AllocError> {
    let Some(atom) = read_atom(alloc, program, text, env)? else {
        return Ok(false);
    };
    let mut out = Vec::new(alloc);
    push_atom(&mut out, program, &atom, env)?;
    let same = atom.coefficients() == coefficients && atom.bound() == bound;
    Ok(same && out.as_slice() == text)
}

fn is_no_text(
    alloc: Global,
    program: &Program,
    text: &[u8],
    env: bool,
) -> Result<bool, AllocError> {
    Ok(read_atom(alloc, program, text, env)?.is_none())
}

#[test]
fn texts_of_atoms(rt: HostRuntime) -> Result<(), Fail> {
    let alloc = rt.alloc();
    let program = two_threads(rt.alloc())?;
    assert!(rt;
        is_text_of(
            alloc,
            &program,
            b"2*x - t1.l <= -3",
            false,
            &[2, -1, 0, 0],
            -3
        )?
    );
    assert!(rt;
        is_text_of(
            alloc,
            &program,
            b"-x + 12*t2.$pc <= 0",
            false,
            &[-1, 0, 0, 12],
            0
        )?
    );
    let over_a_step = [0, 3, 0, 0, -2, 0, 0, 0];
    assert!(rt;
        is_text_of(
            alloc,
            &program,
            b"3*t1.l - 2*x' <= 7",
            true,
            &over_a_step,
            7
        )?
    );
    Ok(())
}

#[test]
fn texts_of_no_atom(rt: HostRuntime) -> Result<(), Fail> {
    let program = two_threads(rt.alloc())?;
    let lines = b"2*x <= 4
x <= 170141183460469231731687303715884105727
1*x <= 0
t1.l + x <= 0
x' <= 0
y <= 0
+x <= 0
x <=0
x + x <= 0
0 <= 1
 <= 1

2*x";
    for line in lines.split(|b| *b == b'\n') {
        assert!(rt; is_no_text(rt.alloc(), &program, line, false)?);
    }
    Ok(())
}
