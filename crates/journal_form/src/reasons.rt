ghost use Rattle.std.specs.Prelude.{◌≡◌, ◌++◌, codes, OnOk, OnErr};
ghost use Rattle.horn_rules.specs.Stored.{home_of, instance_of};
ghost use Rattle.horn_rules.specs.HomeText.{home_text};
ghost use Rattle.core_steps.specs.Stored.{reason_of, reason_of_left};
ghost use Rattle.journal_form.specs.ReasonText.{behind_blank, instance_text, kind_text, left_text, reason_text, system_text};

use core_steps::Reason;
use derivation_tree::{Left, System, TreeLeft};
use farkas_cert::LeaveKind;
use horn_rules::push_home;
use std::alloc::AllocError;
use thr_base::{FactId, Home, Instance, push_number};

/// Appends the words of an instance. They are made apart, so that nothing of them stands there where memory is wanting.
pub fn push_instance(out: &mut Vec<u8>, instance: Instance) -> Result<(), AllocError>
    ensures ok { OnOk result (out.new.items ≡ out.old.items ++ instance_text (instance_of instance)) }
    ensures err { OnErr result (out.new.items ≡ out.old.items) }
{
    let mut text = Vec::new(*out.allocator());
    push_instance_words(&mut text, instance)?;
    out.extend_from_slice(text.as_slice())
}

/// Appends the words of a reason. They are made apart, so that nothing of them stands there where memory is wanting.
pub fn push_reason(out: &mut Vec<u8>, reason: &Reason<'_>) -> Result<(), AllocError>
    ensures ok { OnOk result (out.new.items ≡ out.old.items ++ reason_text (reason_of reason.now)) }
    ensures err { OnErr result (out.new.items ≡ out.old.items) }
{
    let mut text = Vec::new(*out.allocator());
    push_reason_words(&mut text, reason)?;
    out.extend_from_slice(text.as_slice())
}

fn push_behind_blank(text: &mut Vec<u8>, n: u32) -> Result<(), AllocError>
    ensures { OnOk result (text.new.items ≡ text.old.items ++ behind_blank n) }
{
    text.extend_from_slice(b" ")?;
    push_number(text, i128::from(n))
}

/// A word and a number behind it.
fn push_one(text: &mut Vec<u8>, word: &[u8], n: u32) -> Result<(), AllocError>
    ensures { OnOk result (text.new.items ≡ text.old.items ++ (word.now ++ behind_blank n)) }
{
    text.extend_from_slice(word)?;
    push_behind_blank(text, n)
}

/// A word and two numbers behind it.
fn push_two(text: &mut Vec<u8>, word: &[u8], n: u32, m: u32) -> Result<(), AllocError>
    ensures { OnOk result (text.new.items ≡ text.old.items ++ (word.now ++ (behind_blank n ++ behind_blank m))) }
{
    text.extend_from_slice(word)?;
    push_behind_blank(text, n)?;
    push_behind_blank(text, m)
}

fn push_instance_words(text: &mut Vec<u8>, instance: Instance) -> Result<(), AllocError>
    ensures { OnOk result (text.new.items ≡ text.old.items ++ instance_text (instance_of instance)) }
{
    match instance {
        Instance::Init(i) => push_one(text, b"init", i.0),
        Instance::Own(f, e) => push_two(text, b"own", f.0, e.0),
        Instance::Guar(f, e) => push_two(text, b"guar", f.0, e.0),
        Instance::Env(f, t) => push_two(text, b"env", f.0, t.0),
        Instance::Inter(f, g, e) => {
            push_one(text, b"inter", f.0)?;
            push_behind_blank(text, g.0)?;
            push_behind_blank(text, e.0)
        }
    }
}

fn push_kind(text: &mut Vec<u8>, kind: LeaveKind) -> Result<(), AllocError>
    ensures { OnOk result (text.new.items ≡ text.old.items ++ kind_text kind) }
{
    match kind {
        LeaveKind::Overflow => text.extend_from_slice(b"overflow"),
        LeaveKind::Rows => text.extend_from_slice(b"rows"),
    }
}

fn push_system(text: &mut Vec<u8>, system: System) -> Result<(), AllocError>
    ensures { OnOk result (text.new.items ≡ text.old.items ++ system_text system) }
{
    match system {
        System::Cut => text.extend_from_slice(b"cut"),
        System::Full => text.extend_from_slice(b"full"),
        System::Chain => text.extend_from_slice(b"chain"),
    }
}

fn push_reason_words(text: &mut Vec<u8>, reason: &Reason<'_>) -> Result<(), AllocError>
    ensures { OnOk result (text.new.items ≡ text.old.items ++ reason_text (reason_of reason.now)) }
{
    match reason {
        Reason::Facts(n) => push_one(text, b"facts", *n),
        Reason::Jobs(n) => push_one(text, b"jobs", *n),
        Reason::Refinements(n) => push_one(text, b"refinements", *n),
        Reason::Predicates(home) => push_behind_word(text, *home),
        Reason::Left(left) => push_left(text, left),
        Reason::Unsafe(_) => text.extend_from_slice(b"unsafe"),
        Reason::Memory => text.extend_from_slice(b"memory"),
    }
}

fn push_behind_word(text: &mut Vec<u8>, home: Home) -> Result<(), AllocError>
    ensures { OnOk result (text.new.items ≡ text.old.items ++ (codes "predicates " ++ home_text (home_of home))) }
{
    text.extend_from_slice(b"predicates ")?;
    push_home(text, home)
}

fn push_left(text: &mut Vec<u8>, left: &Left<'_>) -> Result<(), AllocError>
    ensures { OnOk result (text.new.items ≡ text.old.items ++ reason_text (reason_of_left left.now)) }
{
    if let Some((job, kind)) = left.job() {
        return push_job_left(text, job.instance, kind);
    }
    match left.tree() {
        Some((kept, left)) => push_tree_left(text, kept.root(), left),
        None => unreachable!(),
    }
}

fn push_job_left(text: &mut Vec<u8>, instance: Instance, kind: LeaveKind) -> Result<(), AllocError>
    ensures { OnOk result (text.new.items ≡ text.old.items ++ (kind_text kind ++ (codes " job " ++ instance_text (instance_of instance)))) }
{
    push_kind(text, kind)?;
    text.extend_from_slice(b" job ")?;
    push_instance_words(text, instance)
}

fn push_tree_left(text: &mut Vec<u8>, root: FactId, left: &TreeLeft) -> Result<(), AllocError>
    ensures { OnOk result (text.new.items ≡ text.old.items ++ left_text root.0 left.now) }
{
    match left {
        TreeLeft::Tree(n) => push_two(text, b"tree", *n, root.0),
        TreeLeft::Wide(system) => {
            push_one(text, b"wide", root.0)?;
            push_last(text, *system)
        }
        TreeLeft::Leaves(system, kind) => {
            push_kind(text, *kind)?;
            push_one(text, b" tree", root.0)?;
            push_last(text, *system)
        }
        TreeLeft::Interpolant(_, k, _) => push_two(text, b"interpolant", root.0, *k),
        TreeLeft::Unrefinable => push_one(text, b"unrefinable", root.0),
    }
}

/// A blank and a system behind it.
fn push_last(text: &mut Vec<u8>, system: System) -> Result<(), AllocError>
    ensures { OnOk result (text.new.items ≡ text.old.items ++ (codes " " ++ system_text system)) }
{
    text.extend_from_slice(b" ")?;
    push_system(text, system)
}
