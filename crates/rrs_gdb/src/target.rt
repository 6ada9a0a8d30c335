//! What gdb is told of the machine.

/// The description of the target: 32 registers with the names of the ABI, and the pc.
pub static TARGET: &[u8] = b"<?xml version=\"1.0\"?>
<!DOCTYPE target SYSTEM \"gdb-target.dtd\">
<target version=\"1.0\">
<architecture>riscv:rv32</architecture>
<feature name=\"org.gnu.gdb.riscv.cpu\">
<reg name=\"zero\" bitsize=\"32\" type=\"int\"/>
<reg name=\"ra\" bitsize=\"32\" type=\"code_ptr\"/>
<reg name=\"sp\" bitsize=\"32\" type=\"data_ptr\"/>
<reg name=\"gp\" bitsize=\"32\" type=\"data_ptr\"/>
<reg name=\"tp\" bitsize=\"32\" type=\"data_ptr\"/>
<reg name=\"t0\" bitsize=\"32\" type=\"int\"/>
<reg name=\"t1\" bitsize=\"32\" type=\"int\"/>
<reg name=\"t2\" bitsize=\"32\" type=\"int\"/>
<reg name=\"fp\" bitsize=\"32\" type=\"data_ptr\"/>
<reg name=\"s1\" bitsize=\"32\" type=\"int\"/>
<reg name=\"a0\" bitsize=\"32\" type=\"int\"/>
<reg name=\"a1\" bitsize=\"32\" type=\"int\"/>
<reg name=\"a2\" bitsize=\"32\" type=\"int\"/>
<reg name=\"a3\" bitsize=\"32\" type=\"int\"/>
<reg name=\"a4\" bitsize=\"32\" type=\"int\"/>
<reg name=\"a5\" bitsize=\"32\" type=\"int\"/>
<reg name=\"a6\" bitsize=\"32\" type=\"int\"/>
<reg name=\"a7\" bitsize=\"32\" type=\"int\"/>
<reg name=\"s2\" bitsize=\"32\" type=\"int\"/>
<reg name=\"s3\" bitsize=\"32\" type=\"int\"/>
<reg name=\"s4\" bitsize=\"32\" type=\"int\"/>
<reg name=\"s5\" bitsize=\"32\" type=\"int\"/>
<reg name=\"s6\" bitsize=\"32\" type=\"int\"/>
<reg name=\"s7\" bitsize=\"32\" type=\"int\"/>
<reg name=\"s8\" bitsize=\"32\" type=\"int\"/>
<reg name=\"s9\" bitsize=\"32\" type=\"int\"/>
<reg name=\"s10\" bitsize=\"32\" type=\"int\"/>
<reg name=\"s11\" bitsize=\"32\" type=\"int\"/>
<reg name=\"t3\" bitsize=\"32\" type=\"int\"/>
<reg name=\"t4\" bitsize=\"32\" type=\"int\"/>
<reg name=\"t5\" bitsize=\"32\" type=\"int\"/>
<reg name=\"t6\" bitsize=\"32\" type=\"int\"/>
<reg name=\"pc\" bitsize=\"32\" type=\"code_ptr\"/>
</feature>
</target>
";
