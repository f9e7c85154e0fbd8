//! Rules that choose.
use quorum::fault::{RuleFault, TreeFault};
use quorum::level_rule::LevelRule;
use quorum::rule::Rule;
use quorum::tree::Tree;
use quorum::tree_rule::TreeRule;
use quorum::votes_rule::VotesRule;
use std::test::Fail;

/// How many of the marks are 1.
fn count(marks: &[u8]) -> u32 {
    let mut ones: u32 = 0;
    for mark in marks {
        if *mark == 1 {
            ones = ones.wrapping_add(1);
        }
    }
    ones
}

#[test]
fn trees_are_allowed_or_not(rt: HostRuntime) -> Result<(), Fail> {
    for (degree, height, copies) in [
        (3, 0, 1),
        (3, 1, 4),
        (3, 2, 13),
        (3, 3, 40),
        (5, 0, 1),
        (5, 1, 6),
        (5, 2, 31),
        (7, 0, 1),
        (7, 1, 8),
        (7, 2, 57),
        (9, 0, 1),
        (9, 1, 10),
    ] {
        assert_eq!(rt; Tree::new(degree, height)?.copies(), copies);
    }
    for (degree, height) in [
        (3, 4),
        (5, 3),
        (7, 3),
        (9, 2),
        (1, 0),
        (4, 1),
        (11, 0),
        (0, 0),
        (3, u32::MAX),
    ] {
        assert_eq!(rt; Tree::new(degree, height), Err(TreeFault::NotAllowed));
    }
    Ok(())
}

#[test]
fn forty_copies_read_one_and_write_fifteen(rt: HostRuntime) -> Result<(), Fail> {
    let rule = TreeRule::new(Tree::new(3, 3)?);
    let reach = [1; 40];
    let mut choice = [7; 40];
    rule.choose_read(&reach, &mut choice)?;
    assert_eq!(rt; count(&choice), 1);
    rule.choose_write(&reach, &mut choice)?;
    assert_eq!(rt; count(&choice), 15);
    Ok(())
}

#[test]
fn a_refusal_leaves_the_marks(rt: HostRuntime) -> Result<(), Fail> {
    let rule = TreeRule::new(Tree::new(3, 2)?);
    let mut choice = [7; 13];
    assert_eq!(rt;
        rule.choose_read(&[0; 13], &mut choice),
        Err(RuleFault::NoReadQuorum)
    );
    assert_eq!(rt;
        rule.choose_write(&[0; 13], &mut choice),
        Err(RuleFault::NoWriteQuorum)
    );
    assert_eq!(rt;
        rule.choose_read(&[0; 12], &mut choice),
        Err(RuleFault::Length(13))
    );
    assert_eq!(rt; choice, [7; 13]);
    let mut short = [7; 12];
    assert_eq!(rt;
        rule.choose_write(&[1; 13], &mut short),
        Err(RuleFault::Length(13))
    );
    assert_eq!(rt; short, [7; 12]);
    Ok(())
}

#[test]
fn any_mark_but_zero_is_in_reach(rt: HostRuntime) -> Result<(), Fail> {
    let rule = LevelRule::new(Tree::new(3, 1)?)?;
    let mut choice = [7; 4];
    rule.choose_write(&[255, 2, 0, 1], &mut choice)?;
    assert_eq!(rt; choice, [1, 1, 0, 1]);
    rule.choose_read(&[0, 2, 0, 1], &mut choice)?;
    assert_eq!(rt; choice, [0, 1, 0, 1]);
    Ok(())
}

#[test]
fn votes_are_counted_in_order(rt: HostRuntime) -> Result<(), Fail> {
    let rule = VotesRule::new(&[0, 1, 255, 1], 200)?;
    assert_eq!(rt; rule.copies(), 4);
    let mut choice = [7; 4];
    rule.choose_write(&[1; 4], &mut choice)?;
    assert_eq!(rt; choice, [0, 1, 1, 0]);
    assert_eq!(rt;
        rule.choose_read(&[1, 1, 0, 1], &mut choice),
        Err(RuleFault::NoReadQuorum)
    );
    Ok(())
}

#[test]
fn votes_are_allowed_or_not(rt: HostRuntime) -> Result<(), Fail> {
    assert_eq!(rt; VotesRule::new(&[], 1), Err(RuleFault::Length(1)));
    assert_eq!(rt; VotesRule::new(&[1; 65], 40), Err(RuleFault::Length(64)));
    assert_eq!(rt; VotesRule::new(&[1; 64], 33)?.copies(), 64);
    for (votes, threshold) in [
        ([1, 1], 1),
        ([1, 1], 3),
        ([256, 1], 200),
        ([0, 0], 0),
        ([1, 1], u32::MAX),
    ] {
        assert_eq!(rt;
            VotesRule::new(&votes, threshold),
            Err(RuleFault::VotesNotAllowed)
        );
    }
    Ok(())
}
