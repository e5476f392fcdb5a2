//! Words and their texts at rising addresses.

/// The address of the first word.
pub(super) const FIRST: u64 = 0x8000_1000;

/// In each line a word, one behind another, and its text as GNU objdump shows it (`-M no-aliases`), but that operands have
/// a space behind the comma, targets a 0x, shifts are decimal, and the fence of the language has no operands.
pub(super) const LINES: &str = "
015703b3 add t2, a4, s5
40a18e33 sub t3, gp, a0
01fc18b3 sll a7, s8, t6
0146a333 slt t1, a3, s4
00913db3 sltu s11, sp, s1
01ebc833 xor a6, s7, t5
013652b3 srl t0, a2, s3
4080dd33 sra s10, ra, s0
01db67b3 or a5, s6, t4
0125f233 and tp, a1, s2
00700cbb addw s9, zero, t2
41ca873b subw a4, s5, t3
011511bb sllw gp, a0, a7
006fdc3b srlw s8, t6, t1
41ba56bb sraw a3, s4, s11
80048113 addi sp, s1, -2048
7ffb8813 addi a6, s7, 2047
fff2af13 slti t5, t0, -1
0009b613 sltiu a2, s3, 0
0010cd13 xori s10, ra, 1
c007e413 ori s0, a5, -1024
3e8efb13 andi s6, t4, 1000
8005821b addiw tp, a1, -2048
000c9913 slli s2, s9, 0
03f39013 slli zero, t2, 63
009ad713 srli a4, s5, 9
4201de13 srai t3, gp, 32
0008951b slliw a0, a7, 0
01ff9c1b slliw s8, t6, 31
00a6d31b srliw t1, a3, 10
41edda1b sraiw s4, s11, 30
80048103 lb sp, -2048(s1)
fffb9803 lh a6, -1(s7)
0002af03 lw t5, 0(t0)
0089b603 ld a2, 8(s3)
0630cd03 lbu s10, 99(ra)
0647d403 lhu s0, 100(a5)
7ffeeb03 lwu s6, 2047(t4)
80b20023 sb a1, -2048(tp)
ff991fa3 sh s9, -1(s2)
00702023 sw t2, 0(zero)
7f573fa3 sd s5, 2047(a4)
ffc18e67 jalr t3, -4(gp)
00000537 lui a0, 0x0
0000f8b7 lui a7, 0xf
00010c37 lui s8, 0x10
12345fb7 lui t6, 0x12345
fffff337 lui t1, 0xfffff
00000697 auipc a3, 0x0
0000fa17 auipc s4, 0xf
00010d97 auipc s11, 0x10
12345117 auipc sp, 0x12345
fffff497 auipc s1, 0xfffff
7f780fe3 beq a6, s7, 0x800020d2
805f1063 bne t5, t0, 0x800000d8
ff364fe3 blt a2, s3, 0x800010da
001d5163 bge s10, ra, 0x800010e2
00f46463 bltu s0, a5, 0x800010ec
ffdb7ce3 bgeu s6, t4, 0x800010e0
7ffff26f jal tp, 0x801010ea
800005ef jal a1, 0x7ff010f0
0020096f jal s2, 0x800010f6
fffffcef jal s9, 0x800010f6
0ff0000f fence
0330000f fence rw, rw
0120000f fence w, r
0210000f fence r, w
0f50000f fence iorw, ow
00000073 ecall
00100073 ebreak
";
