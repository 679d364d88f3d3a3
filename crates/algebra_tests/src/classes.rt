// Tests of the crates of classes: how many classes the labels of an algebra fall into, and that the calls
// which make them succeed.
use alg_classes::{Class, ClassList};
use alg_model::{Alg, Carrier, Label, Tree, Value};
use base_classes::{base_class, base_class_list};
use lex_classes::{lex_class, lex_class_list};
use meta_base::NoMemory;
use scoped_classes::{inner_class, outer_class, scoped_class_list};
use std::alloc::Global;
use std::test::Fail;
use table_classes::{table_class, table_class_list};
use testkit_readers::algebra;
use union_classes::{
    const_class, keep_class, left_class_list, plus_class_list, plus_first_class, plus_second_class,
    right_class_list, sum_class, sum_class_list, union_class_list, union_first_class,
    union_second_class,
};

// The classes of the labels of `add(low..high)`, of numbers up to 10.
fn classes_of_sums(alloc: Global, low: u64, high: u64) -> Result<ClassList, Fail> {
    if low > 10 || high > 10 {
        return Err("a number is too large".into());
    }
    let alg = Alg::checked(Tree::Add { low, high })?;
    Ok(base_class_list(alloc, &alg)?)
}

// The class of the label 1 of `add(1..1)`.
fn class_of_one(alloc: Global) -> Result<Class, Fail> {
    let alg = Alg::checked(Tree::Add { low: 1, high: 1 })?;
    Ok(base_class(alloc, &alg, &Label::Number(1))?)
}

// The class of the label 0 of `add(0..10)`.
fn class_of_zero(alloc: Global) -> Result<Class, Fail> {
    let alg = Alg::checked(Tree::Add { low: 0, high: 10 })?;
    Ok(base_class(alloc, &alg, &Label::Number(0))?)
}

fn count_of_lex(alloc: Global) -> Result<usize, Fail> {
    let ones = classes_of_sums(alloc, 1, 1)?;
    let both = classes_of_sums(alloc, 0, 1)?;
    count(lex_class_list(alloc, &ones, &both))
}

fn count_of_scoped(alloc: Global) -> Result<usize, Fail> {
    let ones = classes_of_sums(alloc, 1, 1)?;
    count(scoped_class_list(alloc, &ones, &ones, &Carrier::Whole, &Carrier::Whole))
}

fn count_of_union(alloc: Global) -> Result<usize, Fail> {
    let ones = classes_of_sums(alloc, 1, 1)?;
    count(union_class_list(alloc, &ones, &ones))
}

fn count_of_sum(alloc: Global) -> Result<usize, Fail> {
    let ones = classes_of_sums(alloc, 1, 1)?;
    count(sum_class_list(alloc, &ones, &ones))
}

fn count_of_plus(alloc: Global) -> Result<usize, Fail> {
    let ones = classes_of_sums(alloc, 1, 1)?;
    let zeros = classes_of_sums(alloc, 0, 0)?;
    count(plus_class_list(alloc, &ones, &zeros))
}

// How many classes there are. It sees no contract of what made them.
fn count(classes: Result<ClassList, NoMemory>) -> Result<usize, Fail> {
    Ok(classes?.classes().len())
}

#[test]
fn classes_are_counted(rt: HostRuntime) -> Result<(), Fail> {
    let alloc = rt.alloc();
    assert_eq!(rt; classes_of_sums(alloc, 0, 10)?.classes().len(), 2);
    assert_eq!(rt; count_of_lex(alloc)?, 1);
    assert_eq!(rt; count_of_scoped(alloc)?, 2);
    assert_eq!(rt; count_of_union(alloc)?, 2);
    assert_eq!(rt; count_of_sum(alloc)?, 1);
    assert_eq!(rt; count_of_plus(alloc)?, 2);
    assert_eq!(rt; count(left_class_list(alloc, &Carrier::UpTo(3)))?, 2);
    assert_eq!(rt; count(right_class_list(alloc, &Carrier::UpTo(3)))?, 1);
    Ok(())
}

// Whether the class of each composed label is strict, in the order of the calls.
fn strict_compounds(alloc: Global) -> Result<[bool; 6], Fail> {
    let one = class_of_one(alloc)?;
    let zero = class_of_zero(alloc)?;
    let whole = Carrier::Whole;
    Ok([
        lex_class(alloc, &one, &zero)?.profile.strict,
        sum_class(alloc, &one, &zero)?.profile.strict,
        outer_class(alloc, &one, &whole, &Value::Number(0))?
            .profile
            .strict,
        inner_class(alloc, &whole, &one)?.profile.strict,
        const_class(alloc, &Carrier::UpTo(3), &Value::Number(3))?
            .profile
            .strict,
        keep_class(alloc, &Carrier::UpTo(3))?.profile.strict,
    ])
}

// Whether the classes of the labels of a union are isotone.
fn isotone_sides(alloc: Global) -> Result<(bool, bool), Fail> {
    let one = class_of_one(alloc)?;
    Ok((
        union_first_class(alloc, &one, &Carrier::Whole)?.profile.iso,
        union_second_class(alloc, &one, &Carrier::Whole)?
            .profile
            .iso,
    ))
}

// Whether the labels of a plus are those of its two algebras.
fn sides_of_plus(alloc: Global) -> Result<bool, Fail> {
    let one = class_of_one(alloc)?;
    let first = plus_first_class(alloc, &one)?;
    let second = plus_second_class(alloc, &one)?;
    Ok(
        first.profile == one.profile
            && second.profile == one.profile
            && matches!(first.label, Label::First(_))
            && matches!(second.label, Label::Second(_)),
    )
}

#[test]
fn classes_are_composed(rt: HostRuntime) -> Result<(), Fail> {
    let alloc = rt.alloc();
    assert!(rt; !class_of_zero(alloc)?.profile.strict);
    assert_eq!(rt;
        strict_compounds(alloc)?,
        [true, false, true, true, false, false]
    );
    assert_eq!(rt; isotone_sides(alloc)?, (true, false));
    assert!(rt; sides_of_plus(alloc)?);
    Ok(())
}

// A class that is there isn't added again.
#[test]
fn a_profile_is_added_once(rt: HostRuntime) -> Result<(), Fail> {
    let alloc = rt.alloc();
    let mut classes = ClassList::new(alloc);
    classes.add(class_of_one(alloc)?)?;
    classes.add(class_of_one(alloc)?)?;
    assert_eq!(rt; classes.classes().len(), 1);
    Ok(())
}

// The count of classes of a table, and whether its last row is monotone.
fn table_facts(alloc: Global, alg: &Alg) -> Result<(usize, bool), NoMemory> {
    match alg.tree() {
        Tree::Table(table) if table.rows.as_slice().len() == 2 => {}
        _ => return Ok((0, false)),
    }
    let class = table_class(alloc, alg, &Label::Row(1))?;
    Ok((
        table_class_list(alloc, alg)?.classes().len(),
        class.profile.mono,
    ))
}

#[test]
fn rows_of_a_table(rt: HostRuntime) -> Result<(), Fail> {
    let alg = algebra(rt.alloc(), "table { o < a < d; D: o -> d; N: d -> a }")?;
    let facts = table_facts(rt.alloc(), &alg);
    drop(alg);
    assert_eq!(rt; facts?, (2, false));
    Ok(())
}
