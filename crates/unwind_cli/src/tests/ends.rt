// Ends that fail, and a source of too many bytes.
use super::*;
use memory_image::{Failed, PlainSink, Source};

#[test]
fn failing_ends_are_told(rt: HostRuntime) -> Result<(), Fail> {
    let alloc = rt.alloc();
    let input = joined(alloc, &[TABLE, STACK, MODULE, START, "\"limit\":2}"], "")?;
    let (number, written) = run_over(alloc, &["deliver"], input.as_str(), &[2], &[])?;
    assert_eq!(rt; (number, written.len()), (3, 0));
    let (number, written) = run_over(alloc, &["deliver"], input.as_str(), &[], &[0])?;
    assert_eq!(rt; (number, written.len()), (4, 0));
    Ok(())
}

/// So many spaces, which are nowhere held.
#[derive(Drop)]
struct Spaces {
    left: usize,
}

impl Source for Spaces {
    ghost use Rattle.std.specs.Prelude.{None};

    ghost left = { λ _. None };

    ghost faults = { λ _. 0 };

    fn read(&mut self, into: &mut [u8]) -> Result<usize, Failed> {
        let count = self.left.min(into.len());
        into[..count].fill(b' ');
        self.left -= count;
        Ok(count)
    }
}

#[test]
fn too_long_a_text_is_refused(rt: HostRuntime) -> Result<(), Fail> {
    let alloc = rt.alloc();
    let mut words = Words::new(alloc);
    words.push("deliver")?;
    for (left, number) in [(67_108_864, 6), (67_108_865, 5)] {
        let mut source = Spaces { left };
        let mut sink = PlainSink::new();
        let status = run(alloc, &words, &mut source, &mut sink);
        assert_eq!(rt; status.number(), number);
    }
    Ok(())
}
