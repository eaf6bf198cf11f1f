//! Edges that were worked by hand. Of four columns x and y are shared, and a and b are the thread's own.

ghost use Rattle.std.specs.Prelude.{◌<◌, length};
ghost use Rattle.thread_cfg.specs.inside.Made.{StandWithin};
ghost use Rattle.thread_cfg.specs.inside.Meant.{frame_of};

use crate::edge::{MadeEdge, alternative_edge};
use crate::event::{Event, Expression};
use crate::frame::Frame;
use crate::relation::Relation;
use c_check::{Operation, Variable};
use std::alloc::{AllocError, Global};
use std::test::Fail;
use thr_base::{Loc, ThreadNo};
use transition_formula::{Edge, Line};

const X: Variable = Variable::Shared(0);

const Y: Variable = Variable::Shared(1);

const A: Variable = Variable::Own(0);

const FRAME: Frame = Frame {
    thread: ThreadNo(1),
    first: 2,
    variables: 2,
};

fn edge(alloc: Global, events: &[Event<'_>]) -> Result<MadeEdge, AllocError>
    requires within { StandWithin 4 (frame_of FRAME) events.now }
    requires few { length events.now < 10 }
{
    alternative_edge(alloc, 4, &FRAME, Loc(1), Loc(2), events)
}

fn is_test(edge: &Edge, place: u32, equal: bool, coefficients: &[i128], bound: i128) -> bool {
    let rows = edge.tests.view();
    if place < rows.count() {
        let row = rows.row(place);
        row.equal == equal && row.coefficients == coefficients && row.bound == bound
    } else {
        false
    }
}

fn is_set(set: &(u32, Line), column: u32, coefficients: &[i128], constant: i128) -> bool {
    set.0 == column && set.1.coefficients.as_slice() == coefficients && set.1.constant == constant
}

/// `x < 5`, and `y = 2 * x - a + 3`.
#[test]
fn a_test_and_a_set(rt: HostRuntime) -> Result<(), Fail> {
    let operations = [
        Operation::Number(2),
        Operation::Value(X),
        Operation::Multiply,
        Operation::Value(A),
        Operation::Subtract,
        Operation::Number(3),
        Operation::Add,
    ];
    let events = [
        Event::Requires {
            from: 3,
            relation: Relation::Less,
            left: Expression::Value(X),
            right: Expression::Number(5),
        },
        Event::Sets {
            at: 4,
            variable: Y,
            value: Expression::Whole(&operations),
        },
    ];
    match edge(rt.alloc(), &events)? {
        MadeEdge::Edge(edge) => {
            assert!(rt; edge.from == Loc(1) && edge.to == Loc(2) && edge.inputs == 0);
            assert_eq!(rt; (edge.tests.view().count(), edge.sets.len()), (1, 1));
            assert!(rt; is_test(&edge, 0, false, &[1, 0, 0, 0], 4));
            assert!(rt; is_set(&edge.sets[0], 1, &[2, 0, -1, 0], 3));
        }
        _ => assert!(rt; false),
    }
    Ok(())
}

/// `y = 2 * x + 1`, `x = y`, again `y = 2 * x + 1`, any `a`, and then `a <= x`: each reads what was set before it, and the sets are
/// in the order of the columns.
#[test]
fn a_path_of_a_block(rt: HostRuntime) -> Result<(), Fail> {
    let operations = [
        Operation::Number(2),
        Operation::Value(X),
        Operation::Multiply,
        Operation::Number(1),
        Operation::Add,
    ];
    let doubled = Event::Sets {
        at: 4,
        variable: Y,
        value: Expression::Whole(&operations),
    };
    let events = [
        doubled,
        Event::Sets {
            at: 5,
            variable: X,
            value: Expression::Value(Y),
        },
        doubled,
        Event::SetsAny(A),
        Event::Requires {
            from: 6,
            relation: Relation::AtMost,
            left: Expression::Value(A),
            right: Expression::Value(X),
        },
    ];
    match edge(rt.alloc(), &events)? {
        MadeEdge::Edge(edge) => {
            assert_eq!(rt;
                (edge.inputs, edge.tests.view().count(), edge.sets.len()),
                (1, 1, 3)
            );
            assert!(rt; is_test(&edge, 0, false, &[-2, 0, 0, 0, 1], 1));
            assert!(rt; is_set(&edge.sets[0], 0, &[2, 0, 0, 0, 0], 1));
            assert!(rt; is_set(&edge.sets[1], 1, &[4, 0, 0, 0, 0], 3));
            assert!(rt; is_set(&edge.sets[2], 2, &[0, 0, 0, 0, 1], 0));
        }
        _ => assert!(rt; false),
    }
    Ok(())
}

/// `x = x * x` where both reads stand in temporaries a and b is no form; `x = x - y` is `a - b`.
#[test]
fn temporaries_in_place_of_what_is_shared(rt: HostRuntime) -> Result<(), Fail> {
    let square = [
        Operation::Value(X),
        Operation::Value(X),
        Operation::Multiply,
    ];
    let less = [
        Operation::Value(X),
        Operation::Value(Y),
        Operation::Subtract,
    ];
    let squared = [Event::Sets {
        at: 7,
        variable: X,
        value: Expression::Cut(&square, 0),
    }];
    let lessened = [Event::Sets {
        at: 7,
        variable: X,
        value: Expression::Cut(&less, 0),
    }];
    match edge(rt.alloc(), &squared)? {
        MadeEdge::Unfit(place) => assert_eq!(rt; place, 7),
        _ => assert!(rt; false),
    }
    match edge(rt.alloc(), &lessened)? {
        MadeEdge::Edge(edge) => {
            assert_eq!(rt; edge.sets.len(), 1);
            assert!(rt; is_set(&edge.sets[0], 0, &[0, 0, 1, -1], 0));
        }
        _ => assert!(rt; false),
    }
    Ok(())
}

/// Rows between numbers: one that holds is left out, one that does not leaves no edge, and one that does not fit has a place.
#[test]
fn rows_between_numbers(rt: HostRuntime) -> Result<(), Fail> {
    let holds = [Event::Requires {
        from: 8,
        relation: Relation::AtMost,
        left: Expression::Number(0),
        right: Expression::Number(1),
    }];
    let never = [Event::Requires {
        from: 8,
        relation: Relation::Equal,
        left: Expression::Number(0),
        right: Expression::Number(1),
    }];
    let unfit = [Event::Requires {
        from: 8,
        relation: Relation::Greater,
        left: Expression::Number(0),
        right: Expression::Number(i128::MAX),
    }];
    match edge(rt.alloc(), &holds)? {
        MadeEdge::Edge(edge) => {
            assert_eq!(rt; (edge.tests.view().count(), edge.sets.len()), (0, 0))
        }
        _ => assert!(rt; false),
    }
    match edge(rt.alloc(), &never)? {
        MadeEdge::Never => {}
        _ => assert!(rt; false),
    }
    match edge(rt.alloc(), &unfit)? {
        MadeEdge::Unfit(place) => assert_eq!(rt; place, 8),
        _ => assert!(rt; false),
    }
    Ok(())
}
