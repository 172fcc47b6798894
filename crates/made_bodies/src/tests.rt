use super::*;
use fixed_point::Memory;
use nbody_model::Body;
use param_file::{Params, read_params};
use std::alloc::Global;
use std::test::Fail;
use store_io::Text;

fn is_body(body: &Body, id: u64, mass: u32, pos: [u32; 3], mom: [i64; 3]) -> bool {
    body.id == id
        && body.kind == 1
        && body.mass == mass
        && body.motion.pos() == pos
        && body.motion.mom() == mom
}

#[test]
fn bodies_are_drawn(rt: HostRuntime) -> Result<(), Fail> {
    let two = draw_bodies(rt.alloc(), 2, 0)?;
    let [first, second] = two.bodies() else {
        return Err("not two".into());
    };
    assert!(rt;
        is_body(
            first,
            1,
            2793,
            [335_903_614, 436_792_849, 2_599_843_874],
            [-122_028, 63_815, -441_335]
        )
    );
    assert!(rt;
        is_body(
            second,
            2,
            2718,
            [1_528_919_950, 2_073_582_529, 1_918_036_279],
            [-141_356, -473_286, -422_255]
        )
    );
    let one = draw_bodies(rt.alloc(), 1, u64::MAX)?;
    let [only] = one.bodies() else {
        return Err("not one".into());
    };
    assert!(rt;
        is_body(
            only,
            1,
            2053,
            [3_149_104_977, 2_980_664_687, 2_415_005_355],
            [494_722, 127_095, 109_351]
        )
    );
    assert_eq!(rt; draw_bodies(rt.alloc(), 0, 5)?.len(), 0);
    Ok(())
}

// Whether a name is this one with an ending.
fn is_named(alloc: Global, found: &Text, name: &str, ending: &str) -> Result<bool, Memory> {
    let mut want = Vec::from_slice(alloc, name.as_bytes())?;
    want.extend_from_slice(ending.as_bytes())?;
    Ok(found.bytes() == want.as_slice())
}

fn names_are(alloc: Global, p: &Params, name: &str) -> Result<bool, Memory> {
    Ok(
        is_named(alloc, &p.init_cond_file, name, ".ics")?
            && is_named(alloc, &p.snapshot_file_base, name, "_out")?
            && is_named(alloc, &p.restart_file_base, name, "_restart")?
            && is_named(alloc, &p.kick_file, name, ".kicks")?
            && is_named(alloc, &p.rank_trace_file, name, ".trace")?,
    )
}

// Whether the numbers are those that are written, and all others are the defaults.
fn numbers_are(p: &Params) -> bool {
    [p.time_max, p.low_bin, p.top_bin, p.err_tol_theta] == [64, 1, 5, 128]
        && [
            p.err_tol_int_accuracy,
            p.gravity_constant_internal,
            p.velocity_shift,
        ] == [16384, 1 << 32, 0]
        && [p.softening_type1, p.restart_every, p.rank_trace] == [256, 0, 0]
}

#[test]
fn settings_are_read(rt: HostRuntime) -> Result<(), Fail> {
    let alloc = rt.alloc();
    let longest = "n".repeat(alloc, 180)?;
    for name in ["a", "restart", "kicks.txt", "%", longest.as_str()] {
        let text = settings_text(alloc, &Text::from_bytes(alloc, name.as_bytes())?)?;
        let Ok(params) = read_params(alloc, &text) else {
            return Err("refused".into());
        };
        assert!(rt; names_are(alloc, &params, name)?);
        assert!(rt; numbers_are(&params));
    }
    Ok(())
}
