//! The target description.

/// The file target.xml: x0 to x31 and the pc with their numbers in packets, 0 to 32, and then three counts of the run. The `osabi` is
/// `none`, so that gdb does not treat the image as a Linux program and step with breakpoints of its own.
pub const TARGET: &str = r#"<?xml version="1.0"?>
<!DOCTYPE target SYSTEM "gdb-target.dtd">
<target version="1.0">
<architecture>riscv:rv32</architecture>
<osabi>none</osabi>
<feature name="org.gnu.gdb.riscv.cpu">
<reg name="zero" bitsize="32" type="int" regnum="0"/>
<reg name="ra" bitsize="32" type="code_ptr" regnum="1"/>
<reg name="sp" bitsize="32" type="data_ptr" regnum="2"/>
<reg name="gp" bitsize="32" type="data_ptr" regnum="3"/>
<reg name="tp" bitsize="32" type="data_ptr" regnum="4"/>
<reg name="t0" bitsize="32" type="int" regnum="5"/>
<reg name="t1" bitsize="32" type="int" regnum="6"/>
<reg name="t2" bitsize="32" type="int" regnum="7"/>
<reg name="fp" bitsize="32" type="data_ptr" regnum="8"/>
<reg name="s1" bitsize="32" type="int" regnum="9"/>
<reg name="a0" bitsize="32" type="int" regnum="10"/>
<reg name="a1" bitsize="32" type="int" regnum="11"/>
<reg name="a2" bitsize="32" type="int" regnum="12"/>
<reg name="a3" bitsize="32" type="int" regnum="13"/>
<reg name="a4" bitsize="32" type="int" regnum="14"/>
<reg name="a5" bitsize="32" type="int" regnum="15"/>
<reg name="a6" bitsize="32" type="int" regnum="16"/>
<reg name="a7" bitsize="32" type="int" regnum="17"/>
<reg name="s2" bitsize="32" type="int" regnum="18"/>
<reg name="s3" bitsize="32" type="int" regnum="19"/>
<reg name="s4" bitsize="32" type="int" regnum="20"/>
<reg name="s5" bitsize="32" type="int" regnum="21"/>
<reg name="s6" bitsize="32" type="int" regnum="22"/>
<reg name="s7" bitsize="32" type="int" regnum="23"/>
<reg name="s8" bitsize="32" type="int" regnum="24"/>
<reg name="s9" bitsize="32" type="int" regnum="25"/>
<reg name="s10" bitsize="32" type="int" regnum="26"/>
<reg name="s11" bitsize="32" type="int" regnum="27"/>
<reg name="t3" bitsize="32" type="int" regnum="28"/>
<reg name="t4" bitsize="32" type="int" regnum="29"/>
<reg name="t5" bitsize="32" type="int" regnum="30"/>
<reg name="t6" bitsize="32" type="int" regnum="31"/>
<reg name="pc" bitsize="32" type="code_ptr" regnum="32"/>
</feature>
<feature name="org.rvfleet.run">
<reg name="steps" bitsize="32" type="uint32" regnum="33" group="run"/>
<reg name="printed" bitsize="32" type="uint32" regnum="34" group="run"/>
<reg name="taken" bitsize="32" type="uint32" regnum="35" group="run"/>
</feature>
</target>
"#;
