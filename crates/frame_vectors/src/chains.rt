// Chains whose states, stacks and resume tables another generator gave, which pushes the words one
// by one.
use crate::asserting::expect_equal;
use generated_chains::{Registers, chain_of};
use std::test::Fail;

/// A chain's count and seed, its innermost state, and how long its stack and its resume table are.
struct Case {
    count: u32,
    seed: u64,
    innermost: Registers,
    stack: usize,
    resumes: usize,
}

const CASES: [Case; 4] = [
    Case {
        count: 1,
        seed: u64::MAX,
        innermost: Registers {
            ra: 0x400020,
            sp: 0x7ffefffffff0,
            rbx: u64::MAX,
            rbp: 0x7ffefffffff0,
        },
        stack: 16,
        resumes: 0,
    },
    Case {
        count: 3,
        seed: 42,
        innermost: Registers {
            ra: 0x400020,
            sp: 0x7ffeffffffc0,
            rbx: 1,
            rbp: 0x7ffeffffffc0,
        },
        stack: 64,
        resumes: 0,
    },
    Case {
        count: 9,
        seed: 12345,
        innermost: Registers {
            ra: 0x400020,
            sp: 0x7ffefffffec0,
            rbx: 0,
            rbp: 0x7ffeffffff10,
        },
        stack: 320,
        resumes: 2,
    },
    Case {
        count: 100000,
        seed: u64::MAX,
        innermost: Registers {
            ra: 0x400020,
            sp: 0x7ffeffd54660,
            rbx: 3,
            rbp: 0x7ffeffd54660,
        },
        stack: 2800032,
        resumes: 24999,
    },
];

#[test]
fn chains_are_those_of_another_generator(rt: HostRuntime) -> Result<(), Fail> {
    for case in &CASES {
        let chain = chain_of(rt.alloc(), case.count, case.seed)?;
        expect_equal(&rt, chain.innermost, case.innermost);
        expect_equal(&rt, chain.stack.len(), case.stack);
        expect_equal(&rt, chain.resumes.len(), case.resumes);
    }
    Ok(())
}

/// The stack of the chain of three functions by the seed 42, from its lowest word on.
const STACK: [u64; 8] = [0x0, 0x400060, 0x2, 0x4000a0, 0x0, 0x0, 0x2a, 0x0];

#[test]
fn stack_is_that_of_another_generator(rt: HostRuntime) -> Result<(), Fail> {
    let chain = chain_of(rt.alloc(), 3, 42)?;
    let mut stack = Vec::new(rt.alloc());
    for word in STACK {
        stack.extend_from_slice(&word.to_le_bytes())?;
    }
    expect_equal(&rt, chain.stack.as_slice(), stack.as_slice());
    Ok(())
}
