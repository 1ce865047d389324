//! The rows of instructions that are not simulated.
ghost use Rattle.std.specs.Prelude.{◌≡◌, ◌==◌, bit_and, find, map, option_map};
ghost use Rattle.rv_disasm.specs.Unsimulated.{row_view, rows16, rows32, unsimulated16, unsimulated32};

/// A row of a listing: the mask of the bits that it fixes, their values, the mnemonic, and the extension.
#[derive(Clone, Copy)]
pub(crate) struct Row(pub u32, pub u32, pub &'static str, pub &'static str);

/// Returns the row of a word in the listings of instructions that are not simulated, or `None` if it has none there.
pub(crate) fn unsimulated32(word: u32) -> Option<Row>
    ensures { option_map row_view result ≡ unsimulated32 word }
{
    find_row(rows32(), word).copied()
}

/// Returns the row of a halfword in the listings of instructions that are not simulated, or `None` if it has none there.
pub(crate) fn unsimulated16(half: u32) -> Option<Row>
    ensures { option_map row_view result ≡ unsimulated16 half }
{
    find_row(rows16(), half).copied()
}

// Returns the first row that an encoding matches, or `None` if it matches none.
fn find_row<'a>(rows: &'a [Row], code: u32) -> Option<&'a Row>
    ensures { option_map (λ row. row.now) result
        ≡ find (λ row. bit_and code row.0 == row.1) rows.now }
{
    rows.iter()
        .find(|Row(mask, pattern, _, _)| code & mask == *pattern)
}

// Returns the rows of all 16-bit instructions that are not simulated.
#[tactic(auto, unfolding(crate::specs::Unsimulated::rows16))]
fn rows16() -> &'static [Row]
    ensures { map row_view result.now ≡ rows16 }
{
    &ROWS16
}

// Returns the rows of all 32-bit instructions that are not simulated.
#[tactic(auto, unfolding(crate::specs::Unsimulated::rows32))]
fn rows32() -> &'static [Row]
    ensures { map row_view result.now ≡ rows32 }
{
    &ROWS32
}

static ROWS16: [Row; 8] = [
    Row(0xe003, 0x2000, "c.fld", "D"),
    Row(0xe003, 0x6000, "c.flw", "F"),
    Row(0xe003, 0xa000, "c.fsd", "D"),
    Row(0xe003, 0xe000, "c.fsw", "F"),
    Row(0xe003, 0x2002, "c.fldsp", "D"),
    Row(0xe003, 0x6002, "c.flwsp", "F"),
    Row(0xe003, 0xa002, "c.fsdsp", "D"),
    Row(0xe003, 0xe002, "c.fswsp", "F"),
];

static ROWS32: [Row; 113] = [
    Row(0x0000_707f, 0x0000_1073, "csrrw", "Zicsr"),
    Row(0x0000_707f, 0x0000_2073, "csrrs", "Zicsr"),
    Row(0x0000_707f, 0x0000_3073, "csrrc", "Zicsr"),
    Row(0x0000_707f, 0x0000_5073, "csrrwi", "Zicsr"),
    Row(0x0000_707f, 0x0000_6073, "csrrsi", "Zicsr"),
    Row(0x0000_707f, 0x0000_7073, "csrrci", "Zicsr"),
    Row(0xf9f0_707f, 0x1000_202f, "lr.w", "A"),
    Row(0xf800_707f, 0x1800_202f, "sc.w", "A"),
    Row(0xf800_707f, 0x0800_202f, "amoswap.w", "A"),
    Row(0xf800_707f, 0x0000_202f, "amoadd.w", "A"),
    Row(0xf800_707f, 0x2000_202f, "amoxor.w", "A"),
    Row(0xf800_707f, 0x6000_202f, "amoand.w", "A"),
    Row(0xf800_707f, 0x4000_202f, "amoor.w", "A"),
    Row(0xf800_707f, 0x8000_202f, "amomin.w", "A"),
    Row(0xf800_707f, 0xa000_202f, "amomax.w", "A"),
    Row(0xf800_707f, 0xc000_202f, "amominu.w", "A"),
    Row(0xf800_707f, 0xe000_202f, "amomaxu.w", "A"),
    Row(0x0000_707f, 0x0000_2007, "flw", "F"),
    Row(0x0000_707f, 0x0000_2027, "fsw", "F"),
    Row(0x0600_007f, 0x0000_0043, "fmadd.s", "F"),
    Row(0x0600_007f, 0x0000_0047, "fmsub.s", "F"),
    Row(0x0600_007f, 0x0000_004b, "fnmsub.s", "F"),
    Row(0x0600_007f, 0x0000_004f, "fnmadd.s", "F"),
    Row(0xfe00_007f, 0x0000_0053, "fadd.s", "F"),
    Row(0xfe00_007f, 0x0800_0053, "fsub.s", "F"),
    Row(0xfe00_007f, 0x1000_0053, "fmul.s", "F"),
    Row(0xfe00_007f, 0x1800_0053, "fdiv.s", "F"),
    Row(0xfff0_007f, 0x5800_0053, "fsqrt.s", "F"),
    Row(0xfe00_707f, 0x2000_0053, "fsgnj.s", "F"),
    Row(0xfe00_707f, 0x2000_1053, "fsgnjn.s", "F"),
    Row(0xfe00_707f, 0x2000_2053, "fsgnjx.s", "F"),
    Row(0xfe00_707f, 0x2800_0053, "fmin.s", "F"),
    Row(0xfe00_707f, 0x2800_1053, "fmax.s", "F"),
    Row(0xfff0_007f, 0xc000_0053, "fcvt.w.s", "F"),
    Row(0xfff0_007f, 0xc010_0053, "fcvt.wu.s", "F"),
    Row(0xfff0_707f, 0xe000_0053, "fmv.x.w", "F"),
    Row(0xfe00_707f, 0xa000_2053, "feq.s", "F"),
    Row(0xfe00_707f, 0xa000_1053, "flt.s", "F"),
    Row(0xfe00_707f, 0xa000_0053, "fle.s", "F"),
    Row(0xfff0_707f, 0xe000_1053, "fclass.s", "F"),
    Row(0xfff0_007f, 0xd000_0053, "fcvt.s.w", "F"),
    Row(0xfff0_007f, 0xd010_0053, "fcvt.s.wu", "F"),
    Row(0xfff0_707f, 0xf000_0053, "fmv.w.x", "F"),
    Row(0x0000_707f, 0x0000_3007, "fld", "D"),
    Row(0x0000_707f, 0x0000_3027, "fsd", "D"),
    Row(0x0600_007f, 0x0200_0043, "fmadd.d", "D"),
    Row(0x0600_007f, 0x0200_0047, "fmsub.d", "D"),
    Row(0x0600_007f, 0x0200_004b, "fnmsub.d", "D"),
    Row(0x0600_007f, 0x0200_004f, "fnmadd.d", "D"),
    Row(0xfe00_007f, 0x0200_0053, "fadd.d", "D"),
    Row(0xfe00_007f, 0x0a00_0053, "fsub.d", "D"),
    Row(0xfe00_007f, 0x1200_0053, "fmul.d", "D"),
    Row(0xfe00_007f, 0x1a00_0053, "fdiv.d", "D"),
    Row(0xfff0_007f, 0x5a00_0053, "fsqrt.d", "D"),
    Row(0xfe00_707f, 0x2200_0053, "fsgnj.d", "D"),
    Row(0xfe00_707f, 0x2200_1053, "fsgnjn.d", "D"),
    Row(0xfe00_707f, 0x2200_2053, "fsgnjx.d", "D"),
    Row(0xfe00_707f, 0x2a00_0053, "fmin.d", "D"),
    Row(0xfe00_707f, 0x2a00_1053, "fmax.d", "D"),
    Row(0xfff0_007f, 0x4010_0053, "fcvt.s.d", "D"),
    Row(0xfff0_007f, 0x4200_0053, "fcvt.d.s", "D"),
    Row(0xfe00_707f, 0xa200_2053, "feq.d", "D"),
    Row(0xfe00_707f, 0xa200_1053, "flt.d", "D"),
    Row(0xfe00_707f, 0xa200_0053, "fle.d", "D"),
    Row(0xfff0_707f, 0xe200_1053, "fclass.d", "D"),
    Row(0xfff0_007f, 0xc200_0053, "fcvt.w.d", "D"),
    Row(0xfff0_007f, 0xc210_0053, "fcvt.wu.d", "D"),
    Row(0xfff0_007f, 0xd200_0053, "fcvt.d.w", "D"),
    Row(0xfff0_007f, 0xd210_0053, "fcvt.d.wu", "D"),
    Row(0xfe00_707f, 0x2000_2033, "sh1add", "Zba"),
    Row(0xfe00_707f, 0x2000_4033, "sh2add", "Zba"),
    Row(0xfe00_707f, 0x2000_6033, "sh3add", "Zba"),
    Row(0xfe00_707f, 0x4000_7033, "andn", "Zbb"),
    Row(0xfe00_707f, 0x4000_6033, "orn", "Zbb"),
    Row(0xfe00_707f, 0x4000_4033, "xnor", "Zbb"),
    Row(0xfff0_707f, 0x6000_1013, "clz", "Zbb"),
    Row(0xfff0_707f, 0x6010_1013, "ctz", "Zbb"),
    Row(0xfff0_707f, 0x6020_1013, "cpop", "Zbb"),
    Row(0xfe00_707f, 0x0a00_6033, "max", "Zbb"),
    Row(0xfe00_707f, 0x0a00_7033, "maxu", "Zbb"),
    Row(0xfe00_707f, 0x0a00_4033, "min", "Zbb"),
    Row(0xfe00_707f, 0x0a00_5033, "minu", "Zbb"),
    Row(0xfff0_707f, 0x6040_1013, "sext.b", "Zbb"),
    Row(0xfff0_707f, 0x6050_1013, "sext.h", "Zbb"),
    Row(0xfff0_707f, 0x0800_4033, "zext.h", "Zbb"),
    Row(0xfe00_707f, 0x6000_1033, "rol", "Zbb"),
    Row(0xfe00_707f, 0x6000_5033, "ror", "Zbb"),
    Row(0xfe00_707f, 0x6000_5013, "rori", "Zbb"),
    Row(0xfff0_707f, 0x2870_5013, "orc.b", "Zbb"),
    Row(0xfff0_707f, 0x6980_5013, "rev8", "Zbb"),
    Row(0xfe00_707f, 0x0a00_1033, "clmul", "Zbc"),
    Row(0xfe00_707f, 0x0a00_3033, "clmulh", "Zbc"),
    Row(0xfe00_707f, 0x0a00_2033, "clmulr", "Zbc"),
    Row(0xfe00_707f, 0x4800_1033, "bclr", "Zbs"),
    Row(0xfe00_707f, 0x4800_1013, "bclri", "Zbs"),
    Row(0xfe00_707f, 0x4800_5033, "bext", "Zbs"),
    Row(0xfe00_707f, 0x4800_5013, "bexti", "Zbs"),
    Row(0xfe00_707f, 0x6800_1033, "binv", "Zbs"),
    Row(0xfe00_707f, 0x6800_1013, "binvi", "Zbs"),
    Row(0xfe00_707f, 0x2800_1033, "bset", "Zbs"),
    Row(0xfe00_707f, 0x2800_1013, "bseti", "Zbs"),
    Row(0xfe00_707f, 0x0e00_5033, "czero.eqz", "Zicond"),
    Row(0xfe00_707f, 0x0e00_7033, "czero.nez", "Zicond"),
    Row(0xffff_ffff, 0x00d0_0073, "wrs.nto", "Zawrs"),
    Row(0xffff_ffff, 0x01d0_0073, "wrs.sto", "Zawrs"),
    Row(0xfff0_7fff, 0x0000_200f, "cbo.inval", "Zicbom"),
    Row(0xfff0_7fff, 0x0010_200f, "cbo.clean", "Zicbom"),
    Row(0xfff0_7fff, 0x0020_200f, "cbo.flush", "Zicbom"),
    Row(0xfff0_7fff, 0x0040_200f, "cbo.zero", "Zicboz"),
    Row(0xffff_ffff, 0x1020_0073, "sret", "privileged"),
    Row(0xffff_ffff, 0x3020_0073, "mret", "privileged"),
    Row(0xffff_ffff, 0x1050_0073, "wfi", "privileged"),
    Row(0xfe00_7fff, 0x1200_0073, "sfence.vma", "privileged"),
];
