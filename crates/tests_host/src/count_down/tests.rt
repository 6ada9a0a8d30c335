use super::*;
use rrs_lib::HartState;
use rrs_lib::memories::VecMemory;
use std::test::Fail;

#[test]
fn counts_down_from_five(rt: HostRuntime) -> Result<(), Fail> {
    let mut memory = VecMemory::new([0xfff08093, 0xfe009ee3].to_vec(rt.alloc())?);
    let mut hart = HartState::new();
    hart.registers[1] = 5;
    let mut executor = InstructionExecutor {
        mem: &mut memory,
        hart_state: &mut hart,
    };
    let end = count_down(&mut executor);
    assert!(rt; end.steps == 10 && end.exception.is_none() && hart.pc == 8);
    Ok(())
}
