use super::*;
use std::test::Fail;

// An empty block `POT ` and one of three bytes.
const TWO: [u8; 51] = [
    8, 0, 0, 0, 80, 79, 84, 32, 8, 0, 0, 0, 8, 0, 0, 0, 0, 0, 0, 0, 0, 0, 0, 0, 8, 0, 0, 0, 65, 66,
    67, 68, 11, 0, 0, 0, 8, 0, 0, 0, 3, 0, 0, 0, 1, 2, 3, 3, 0, 0, 0,
];

#[test]
fn lists_two_blocks(rt: HostRuntime) -> Result<(), Fail> {
    let blocks = list_blocks(rt.alloc(), &TWO)?;
    let want = [
        Block {
            name: *b"POT ",
            at: 20,
            len: 0,
        },
        Block {
            name: *b"ABCD",
            at: 44,
            len: 3,
        },
    ];
    assert_eq!(rt; blocks.as_slice(), want.as_slice());
    Ok(())
}

#[test]
fn pushes_two_blocks(rt: HostRuntime) -> Result<(), Fail> {
    let mut out = Vec::new(rt.alloc());
    push_block(&mut out, *b"POT ", &[])?;
    push_block(&mut out, *b"ABCD", &[1, 2, 3])?;
    assert_eq!(rt; out.as_slice(), TWO.as_slice());
    Ok(())
}

#[test]
fn names_the_place_of_a_fault(rt: HostRuntime) {
    let mut bytes = TWO;
    bytes[47] = 9;
    let want = BlockErr {
        at: 47,
        kind: BlockKind::FrameDiffers { first: 3, last: 9 },
    };
    assert!(rt; list_blocks(rt.alloc(), &bytes).is_err_and(|e| e == want));
    let cut = BlockErr {
        at: 40,
        kind: BlockKind::Truncated,
    };
    assert!(rt; list_blocks(rt.alloc(), &TWO[..50]).is_err_and(|e| e == cut));
}
