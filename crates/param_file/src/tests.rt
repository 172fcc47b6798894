use super::*;
use std::alloc::Global;
use std::test::Fail;

const REST: &[u8] = b"
TimeMax 64
LowBin 1
TopBin 5
ErrTolTheta 128
ErrTolIntAccuracy 16384
GravityConstantInternal 4294967296
VelocityShift 0
";

// The fault of bytes. A function of its own, so that no proof opens a contract at a long literal.
fn fault_of(alloc: Global, bytes: &[u8]) -> Option<ParamErr> {
    read_params(alloc, bytes).err()
}

fn settings(alloc: Global, bytes: &[u8]) -> Result<Params, Fail> {
    Ok(read_params(alloc, bytes)?)
}

// These bytes, and the required rows behind them.
fn with_rest(alloc: Global, head: &[u8]) -> Result<Vec<u8>, Fail> {
    let mut bytes = Vec::from_slice(alloc, head)?;
    bytes.extend_from_slice(REST)?;
    Ok(bytes)
}

fn fault_before_rest(alloc: Global, head: &[u8]) -> Result<Option<ParamErr>, Fail> {
    let bytes = with_rest(alloc, head)?;
    Ok(fault_of(alloc, &bytes))
}

#[test]
fn finds_the_first_fault(rt: HostRuntime) -> Result<(), Fail> {
    let cases = [
        ("\n\nGravity 5", 3, ParamKind::Unknown),
        (
            "DeliverySeed 18446744073709551616",
            1,
            ParamKind::OutOfRange,
        ),
        ("\nTimeMax 1.5", 2, ParamKind::NotNumber),
        ("KickFile", 1, ParamKind::NoValue),
    ];
    for (head, line, kind) in cases {
        let fault = fault_before_rest(rt.alloc(), head.as_bytes())?;
        assert_eq!(rt; fault, Some(ParamErr { line, kind }));
    }
    Ok(())
}

#[test]
fn bins_are_in_order(rt: HostRuntime) -> Result<(), Fail> {
    let bytes =
        b"LowBin 5\nInitCondFile a\nTopBin 4\nSnapshotFileBase b\nTimeMax 0\nErrTolTheta 0\nErrTolIntAccuracy 1\nGravityConstantInternal 0\nVelocityShift 0";
    let fault = fault_of(rt.alloc(), bytes);
    assert_eq!(rt;
        fault,
        Some(ParamErr {
            line: 3,
            kind: ParamKind::OutOfRange
        })
    );
    Ok(())
}

// What is written of settings, and of the same read back.
fn written_twice(alloc: Global, bytes: &[u8]) -> Result<(Vec<u8>, Vec<u8>), Fail> {
    let params = settings(alloc, bytes)?;
    params.are_accepted();
    let written = write_params(alloc, &params)?;
    let again = written_and_read(alloc, &params)?;
    Ok((written, write_params(alloc, &again)?))
}

fn bins_of(params: &Params) -> (u8, u8) {
    let setup = params.setup();
    (setup.low_bin, setup.top_bin)
}

#[test]
fn reads_what_is_written(rt: HostRuntime) -> Result<(), Fail> {
    let alloc = rt.alloc();
    let bytes = with_rest(alloc, b"InitCondFile a\nSnapshotFileBase b")?;
    let (written, again) = written_twice(alloc, &bytes)?;
    assert_eq!(rt; again.as_slice(), written.as_slice());
    let params = settings(alloc, &bytes)?;
    assert_eq!(rt; bins_of(&params), (1, 5));
    Ok(())
}
