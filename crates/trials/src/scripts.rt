// Scripts on examples: each command read and written, the ends that are missing, and an unknown byte.
use filter::Filter;
use network::{Command, Opening, Rooms};
use script::{Expected, Fault, Reader, Unopened, writer};
use std::test::Fail;

const SCRIPT: [u8; 25] = [
    1, 2, 0, 0, 1, 20, 0, 0, 0, 2, 1, 0, 0, 5, 0, 0, 1, 1, 1, 20, 0, 0, 0, 3, 1,
];

fn opened(reader: &mut Reader) -> Result<Opening, Fail> {
    match reader.opening(Rooms::LARGEST) {
        Ok(opening) => Ok(opening),
        Err(_) => Err(Fail::new("not opened")),
    }
}

// The fault of a script that is cut after so many bytes, where its opening is whole.
fn fault_after(end: usize) -> Result<Option<Fault>, Fail> {
    let whole = SCRIPT;
    let Some(script) = whole.get(0..end) else {
        return Err(Fail::new("no such end"));
    };
    let mut reader = Reader::new(script);
    let opening = opened(&mut reader)?;
    for _ in 0..3 {
        match reader.command(&opening) {
            Ok(Some(_)) => {}
            Ok(None) => return Ok(None),
            Err(fault) => return Ok(Some(fault)),
        }
    }
    Err(Fail::new("no end"))
}

#[test]
fn reads_and_writes_again(rt: HostRuntime) -> Result<(), Fail> {
    let script = SCRIPT;
    let mut reader = Reader::new(&script);
    let opening = opened(&mut reader)?;
    let mut again = Vec::new(rt.alloc());
    for _ in 0..2 {
        let Ok(Some(command)) = reader.command(&opening) else {
            return Err(Fail::new("no command"));
        };
        writer::write_command(&mut again, command, &opening)?;
    }
    assert!(rt; again.as_slice() == &script[3..23]);
    let large = Command::Join {
        broker: 256,
        number: 0,
        filter: Filter::new(&[]),
    };
    assert!(rt; writer::write_command(&mut again, large, &opening).is_err());
    assert_eq!(rt; again.len(), 20);
    Ok(())
}

#[test]
fn names_what_is_missing(rt: HostRuntime) -> Result<(), Fail> {
    assert_eq!(rt; fault_after(23)?, None);
    assert_eq!(rt;
        fault_after(4)?,
        Some(Fault::Cut {
            at: 4,
            expected: Expected::Broker,
        })
    );
    assert_eq!(rt;
        fault_after(8)?,
        Some(Fault::Cut {
            at: 8,
            expected: Expected::SubscriberNumber,
        })
    );
    assert_eq!(rt;
        fault_after(16)?,
        Some(Fault::Cut {
            at: 16,
            expected: Expected::Bound(1),
        })
    );
    assert_eq!(rt;
        fault_after(25)?,
        Some(Fault::Cut {
            at: 25,
            expected: Expected::OtherBroker,
        })
    );
    let mut cut = Reader::new(&[1, 3, 0]);
    let Err(Unopened::Faulty(fault)) = cut.opening(Rooms::LARGEST) else {
        return Err(Fail::new("opened"));
    };
    let text = fault.to_string(rt.alloc())?;
    assert!(rt;
        text.as_str()
            == "the script ends at byte 3, where the broker that broker 2 hangs on was expected"
    );
    Ok(())
}
