// The names of the job: members of a library and symbols of a program, each with its record.
use crate::ask::Ask;
use records::{Member, Sort, Symbol};
use runs::kinds::{Either, Only};
use std::alloc::{AllocError, Global};

// A member's name, how long it is, and what it holds. They lie one after another.
const MEMBERS: [(&str, u32, Sort); 20] = [
    ("crt0.o/", 412, Sort::Object),
    ("startup_stm32.o/", 1288, Sort::Object),
    ("vectors.o/", 604, Sort::Data),
    ("memcpy.o/", 196, Sort::Object),
    ("memset.o/", 152, Sort::Object),
    ("memmove.o/", 244, Sort::Object),
    ("strlen.o/", 88, Sort::Object),
    ("strcmp.o/", 104, Sort::Object),
    ("snprintf.o/", 5236, Sort::Object),
    ("strtol.o/", 712, Sort::Object),
    ("qsort.o/", 640, Sort::Object),
    ("udivsi3.o/", 308, Sort::Object),
    ("divdi3.o/", 520, Sort::Object),
    ("softfloat_add.o/", 936, Sort::Object),
    ("softfloat_mul.o/", 884, Sort::Object),
    ("crc32_table.o/", 1092, Sort::Data),
    ("sine_table.o/", 2116, Sort::Data),
    ("heap_static.o/", 476, Sort::Object),
    ("section_layout.ld/", 1730, Sort::Other),
    ("README/", 905, Sort::Other),
];

// The first member lies after the library's own mark.
const FIRST_MEMBER: u32 = 8;

// A symbol's name, its section, and its address there.
const SYMBOLS: [(&str, u16, u32); 40] = [
    ("reset_handler", 1, 0x0800_0140),
    ("nmi_handler", 1, 0x0800_01a0),
    ("hard_fault_handler", 1, 0x0800_01a4),
    ("systick_handler", 1, 0x0800_01c0),
    ("uart0_isr", 1, 0x0800_01ec),
    ("timer1_isr", 1, 0x0800_0270),
    ("main", 1, 0x0800_02bc),
    ("_ZN5board10clock_initEv", 1, 0x0800_0458),
    ("_ZN5board9gpio_initEv", 1, 0x0800_04ec),
    ("_ZN7drivers4gpio5writeEhb", 1, 0x0800_0548),
    ("_ZN7drivers4gpio4readEh", 1, 0x0800_056c),
    ("_ZN7drivers4uart4initEj", 1, 0x0800_0588),
    ("_ZN7drivers4uart4putcEc", 1, 0x0800_0630),
    ("_ZN7drivers4uart4getcEv", 1, 0x0800_0658),
    ("_ZN7drivers4uart5flushEv", 1, 0x0800_0684),
    ("_ZN7drivers3spi4initEj", 1, 0x0800_069c),
    ("_ZN7drivers3spi8transferEPKhPhj", 1, 0x0800_0714),
    ("_ZN7drivers3i2c5startEh", 1, 0x0800_076c),
    ("_ZN7drivers3i2c4stopEv", 1, 0x0800_07ac),
    ("_ZN7drivers3adc6sampleEh", 1, 0x0800_07cc),
    ("_ZN7drivers3dac5writeEt", 1, 0x0800_083c),
    ("_ZN7drivers8watchdog4kickEv", 1, 0x0800_0870),
    ("_ZN6kernel9scheduler5startEv", 1, 0x0800_0880),
    ("_ZN6kernel9scheduler4tickEv", 1, 0x0800_08d4),
    ("_ZN6kernel4task6createEPFvPvES1_j", 1, 0x0800_0960),
    ("_ZN6kernel4task5yieldEv", 1, 0x0800_09fc),
    ("_ZN6kernel5mutex4lockEv", 1, 0x0800_0a2c),
    ("_ZN6kernel5mutex6unlockEv", 1, 0x0800_0a74),
    ("_ZN6kernel5queue4pushEPKv", 1, 0x0800_0ab0),
    ("_ZN6kernel5queue3popEPv", 1, 0x0800_0b18),
    ("vector_table", 2, 0x0800_4000),
    ("crc32_table", 2, 0x0800_4140),
    ("sine_table", 2, 0x0800_4540),
    ("version_text", 2, 0x0800_4d40),
    ("default_config", 2, 0x0800_4d58),
    ("system_clock", 3, 0x2000_0000),
    ("tick_count", 3, 0x2000_0004),
    ("_ZN6kernel4task4listE", 3, 0x2000_0008),
    ("_ZN7drivers4uart6bufferE", 4, 0x2000_0400),
    ("heap_area", 4, 0x2000_0500),
];

// A put of each member.
pub fn member_puts(heap: Global) -> Result<Vec<Ask<'static>>, AllocError> {
    let mut puts = Vec::new(heap);
    let mut offset = FIRST_MEMBER;
    for (name, length, sort) in MEMBERS {
        let member = Member {
            offset,
            length,
            sort,
        };
        puts.push(Ask::Put(name.as_bytes(), Either::Second(Only(member))))?;
        offset = offset.saturating_add(length);
    }
    Ok(puts)
}

// A put of each symbol.
pub fn symbol_puts(heap: Global) -> Result<Vec<Ask<'static>>, AllocError> {
    let mut puts = Vec::new(heap);
    for (name, section, address) in SYMBOLS {
        let symbol = Symbol {
            address,
            section,
            addend: 0,
        };
        puts.push(Ask::Put(name.as_bytes(), Either::First(Only(symbol))))?;
    }
    Ok(puts)
}
