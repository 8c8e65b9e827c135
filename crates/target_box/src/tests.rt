use super::*;
use fe_base::memory_map::START_WORD;
use fe_base::{BeatWire, ByteSink, NoTrace, Pauses, WireStop};
use std::test::Fail;

const PLACE: u64 = 0x1_0000;

type Answers = (
    Result<u64, WireStop>,
    Result<(), WireStop>,
    Result<u64, WireStop>,
    Result<u64, WireStop>,
);

// A read, a write, and two reads of one doubleword.
fn exchange<W: BeatWire>(wire: &mut W) -> Answers
    requires { W.usable wire.old }
{
    let first = wire.read_beat(PLACE);
    let written = wire.write_beat(PLACE, 5);
    let second = wire.read_beat(PLACE);
    let third = wire.read_beat(PLACE);
    (first, written, second, third)
}

// A row: the calls of the trace's sink that fail, the answers, and the trace.
#[test]
fn puts_a_line_behind_each_transaction(rt: HostRuntime) -> Result<(), Fail> {
    let spent = Err(WireStop::Spent);
    let rows: [(&[u64], Answers, &str); 2] = [
        (
            &[],
            (Ok(0), Ok(()), Ok(5), spent),
            "b 1 r 0000000000010000 0000000000000000\nb 0 w 0000000000010000 0000000000000005\nb 1 r 0000000000010000 0000000000000005\n",
        ),
        (
            &[1],
            (Ok(0), Err(WireStop::Failed), Ok(5), spent),
            "b 1 r 0000000000010000 0000000000000000\nb 1 r 0000000000010000 0000000000000005\n",
        ),
    ];
    for (failing, answers, text) in rows {
        let pauses = Pauses::list(&[1, 0]).ok_or("pauses")?;
        let mut target = Target::direct(rt.alloc(), pauses, 3)?;
        let mut trace = ByteSink::new(rt.alloc(), 192, failing)?;
        let mut line = Line {
            target: &mut target,
            trace: &mut trace,
        };
        assert_eq!(rt; exchange(&mut line), answers);
        line.end();
        assert_eq!(rt; trace.as_slice(), text.as_bytes());
        assert_eq!(rt; target.turns(), 3);
    }
    Ok(())
}

// Writes 1 to the start word and reads it twice.
fn start<W: BeatWire>(wire: &mut W) -> Result<u64, WireStop>
    requires { W.usable wire.old }
{
    wire.write_beat(START_WORD, 1)?;
    let _running = wire.read_beat(START_WORD)?;
    wire.read_beat(START_WORD)
}

#[test]
fn a_held_hart_waits_for_the_start_word(rt: HostRuntime) -> Result<(), Fail> {
    let pauses = Pauses::list(&[1]).ok_or("pauses")?;
    let mut target = Target::direct(rt.alloc(), pauses, 9)?;
    assert!(rt; target.hart().run == rv_hart::Run::Held);
    let mut line = Line {
        target: &mut target,
        trace: &mut NoTrace,
    };
    assert_eq!(rt; start(&mut line), Ok(1));
    line.end();
    assert!(rt; target.hart().run == rv_hart::Run::Running);
    assert_eq!(rt; target.bus().read_beat(START_WORD), Some(1));
    assert_eq!(rt; (target.turns(), target.user_steps()), (3, 0));
    Ok(())
}
