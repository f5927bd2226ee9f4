//! What stands before the lines of a whole program. `tools/whole_translation.py` makes this file.

pub(crate) const WHOLE_FRONT: &str = r#"#ifndef SFI_NATIVE_H
/* What a translated image's lines mean, and the console of `sfi run`: headers of crates/sfi_translate/include, and
   examples/translate/sfi_console.c, which have the comments. The lines begin after the last #else. */
#ifndef SFI_TEXT
#ifdef __FILE_NAME__
#define SFI_TEXT __FILE_NAME__
#else
#define SFI_TEXT __FILE__
#endif
#endif
#include <stdio.h>
#include <stdlib.h>
#ifndef SFI_NATIVE_H
#define SFI_NATIVE_H
#include <stdint.h>
#include <string.h>
typedef uint32_t sfi_u32;
typedef int32_t sfi_i32;
#ifdef __GNUC__
#define SFI_RARE(condition) __builtin_expect(!!(condition), 0)
#pragma GCC diagnostic ignored "-Wunused-label"
#pragma GCC diagnostic ignored "-Wimplicit-fallthrough"
#pragma GCC diagnostic ignored "-Wtype-limits"
#if defined(__BYTE_ORDER__) && __BYTE_ORDER__ != __ORDER_LITTLE_ENDIAN__
#error "the host's numbers don't have their lowest byte first"
#endif
#else
#define SFI_RARE(condition) (condition)
#endif
#define SFI_SIGNED(v) ((sfi_i32)(v))
#define SFI_add(a, b) ((a) + (b))
#define SFI_sub(a, b) ((a) - (b))
#define SFI_xor(a, b) ((a) ^ (b))
#define SFI_or(a, b) ((a) | (b))
#define SFI_and(a, b) ((a) & (b))
#define SFI_sll(a, b) ((a) << ((b) & 31u))
#define SFI_srl(a, b) ((a) >> ((b) & 31u))
#define SFI_sra(a, b) ((sfi_u32)(SFI_SIGNED(a) >> ((b) & 31u)))
#define SFI_slt(a, b) ((sfi_u32)(SFI_SIGNED(a) < SFI_SIGNED(b)))
#define SFI_sltu(a, b) ((sfi_u32)((a) < (b)))
#define SFI_mul(a, b) ((a) * (b))
#define SFI_mulh(a, b) ((sfi_u32)((uint64_t)((int64_t)SFI_SIGNED(a) * SFI_SIGNED(b)) >> 32))
#define SFI_mulhsu(a, b) ((sfi_u32)((uint64_t)((int64_t)SFI_SIGNED(a) * (int64_t)(uint64_t)(b)) >> 32))
#define SFI_mulhu(a, b) ((sfi_u32)((uint64_t)(a) * (b) >> 32))
#define SFI_div(a, b) sfi_quotient(a, b)
#define SFI_rem(a, b) sfi_remainder(a, b)
#define SFI_divu(a, b) ((b) == 0 ? ~0u : (a) / ((b) == 0 ? 1u : (b)))
#define SFI_remu(a, b) ((b) == 0 ? (a) : (a) % ((b) == 0 ? 1u : (b)))
static inline sfi_u32 sfi_quotient(sfi_u32 a, sfi_u32 b) {
    return b == 0 ? ~0u : b == ~0u ? 0u - a : (sfi_u32)(SFI_SIGNED(a) / SFI_SIGNED(b));
}
static inline sfi_u32 sfi_remainder(sfi_u32 a, sfi_u32 b) {
    return b == 0 ? a : b == ~0u ? 0u : (sfi_u32)(SFI_SIGNED(a) % SFI_SIGNED(b));
}
#define SFI_addi SFI_add
#define SFI_slti SFI_slt
#define SFI_sltiu SFI_sltu
#define SFI_xori SFI_xor
#define SFI_ori SFI_or
#define SFI_andi SFI_and
#define SFI_slli SFI_sll
#define SFI_srli SFI_srl
#define SFI_srai SFI_sra
#define SFI_beq(a, b) ((a) == (b))
#define SFI_bne(a, b) ((a) != (b))
#define SFI_blt(a, b) (SFI_SIGNED(a) < SFI_SIGNED(b))
#define SFI_bge(a, b) (SFI_SIGNED(a) >= SFI_SIGNED(b))
#define SFI_bltu(a, b) ((a) < (b))
#define SFI_bgeu(a, b) ((a) >= (b))
typedef int8_t sfi_lb; typedef int16_t sfi_lh; typedef uint32_t sfi_lw; typedef uint8_t sfi_lbu; typedef uint16_t sfi_lhu;
typedef uint8_t sfi_sb; typedef uint16_t sfi_sh; typedef uint32_t sfi_sw;
#define SFI_COMPUTATIONS(X) X(add) X(sub) X(xor) X(or) X(and) X(sll) X(srl) X(sra) X(slt) X(sltu) \
    X(mul) X(mulh) X(mulhsu) X(mulhu) X(div) X(divu) X(rem) X(remu)
#define SFI_IMMEDIATES(X) X(addi) X(slti) X(sltiu) X(xori) X(ori) X(andi) X(slli) X(srli) X(srai)
#define SFI_LOADS(X) X(lb) X(lh) X(lw) X(lbu) X(lhu)
#define SFI_STORES(X) X(sb) X(sh) X(sw)
#define SFI_BRANCHES(X) X(beq) X(bne) X(blt) X(bge) X(bltu) X(bgeu)
#define SFI_KIND(kind) SFI_KIND_##kind,
enum { SFI_COMPUTATIONS(SFI_KIND) SFI_IMMEDIATES(SFI_KIND) SFI_LOADS(SFI_KIND) SFI_STORES(SFI_KIND) SFI_BRANCHES(SFI_KIND)
    SFI_KIND_jal, SFI_KIND_jalr, SFI_KIND_lui, SFI_KIND_auipc, SFI_KIND_fence, SFI_KIND_ecall, SFI_KIND_ebreak };
struct sfi_hart { sfi_u32 x[32], pc, left; uint8_t *data; };
struct sfi_row { sfi_u32 kind : 6, size : 3, rd : 5, rs1 : 5, rs2 : 5; sfi_i32 number; };
struct sfi_native_gate { sfi_u32 address, service; };
typedef int sfi_function(struct sfi_hart *restrict);
struct sfi_sandbox {
    sfi_u32 unit, code, code_size, data, data_size, start, gates, init;
    const struct sfi_native_gate *gate;
    const uint8_t *first_data;
    const struct sfi_row *(*rows)(void);
    sfi_function *const *functions;
    sfi_u32 single;
};
static inline void sfi_begin(const struct sfi_sandbox *s, struct sfi_hart *h, sfi_u32 pc) {
    const struct sfi_hart first = { { [2] = s->data + s->data_size - 16, [24] = s->code, [25] = s->code_size - s->unit,
        [26] = s->data, [27] = s->data_size - 1 + (s->single ? s->data : 0) }, pc, h->left, h->data };
    *h = first;
    if (s->unit == 4) {
        h->x[3] = h->x[4] = h->x[29] = s->data;
        h->x[30] = pc;
    }
}
enum { SFI_NEXT, SFI_CALL, SFI_LOAD, SFI_STORE, SFI_BREAK, SFI_FETCH };
enum { SFI_PART = 16384 };
#define SFI_HEAD 128
#define SFI_MOST (SFI_HEAD / 2 + 1)
static int sfi_step_by(struct sfi_row row, const struct sfi_sandbox *s, struct sfi_hart *h, sfi_u32 *at) {
    *at = h->pc;
    if (row.size == 0)
        return SFI_FETCH;
    const sfi_u32 a = h->x[row.rs1], b = h->x[row.rs2], number = (sfi_u32)row.number, place = a + number - s->data;
    sfi_u32 next = h->pc + row.size, value = 0, writes = row.rd;
    switch (row.kind) {
#define SFI_KIND_OP(kind) case SFI_KIND_##kind: value = SFI_##kind(a, b); break;
    SFI_COMPUTATIONS(SFI_KIND_OP)
#define SFI_KIND_OPI(kind) case SFI_KIND_##kind: value = SFI_##kind(a, number); break;
    SFI_IMMEDIATES(SFI_KIND_OPI)
#define SFI_KIND_LOAD(kind) case SFI_KIND_##kind: { sfi_##kind loaded; \
        if (place > s->data_size - sizeof loaded) { *at = a + number; return SFI_LOAD; } \
        memcpy(&loaded, h->data + place, sizeof loaded); value = (sfi_u32)(sfi_i32)loaded; break; }
    SFI_LOADS(SFI_KIND_LOAD)
#define SFI_KIND_STORE(kind) case SFI_KIND_##kind: { const sfi_##kind stored = (sfi_##kind)b; \
        if (place > s->data_size - sizeof stored) { *at = a + number; return SFI_STORE; } \
        memcpy(h->data + place, &stored, sizeof stored); break; }
    SFI_STORES(SFI_KIND_STORE)
#define SFI_KIND_BRANCH(kind) case SFI_KIND_##kind: if (SFI_##kind(a, b)) next = number; break;
    SFI_BRANCHES(SFI_KIND_BRANCH)
    case SFI_KIND_jal: value = next; next = number; break;
    case SFI_KIND_jalr: value = next; next = (a + number) & ~1u; break;
    case SFI_KIND_lui: value = number << 12; break;
    case SFI_KIND_auipc: value = h->pc + (number << 12); break;
    case SFI_KIND_fence: break;
    case SFI_KIND_ecall: return SFI_CALL;
    case SFI_KIND_ebreak: return SFI_BREAK;
    }
    if (writes)
        h->x[writes] = value;
    h->pc = next;
    h->left--;
    return SFI_NEXT;
}
#ifdef SFI_TEXT
static int sfi_step(const struct sfi_sandbox *s, struct sfi_hart *h, sfi_u32 *at) {
    static const struct sfi_row none;
    const sfi_u32 offset = h->pc - s->code;
    return sfi_step_by(offset < s->code_size && offset % 2 == 0 ? s->rows()[offset / 2] : none, s, h, at);
}
static int sfi_turn(const struct sfi_sandbox *s, struct sfi_hart *h, sfi_u32 *at) {
    sfi_function *const *const functions = s->functions;
    const sfi_u32 code = s->code, code_size = s->code_size;
    for (;;) {
        while (h->left >= SFI_MOST && h->pc - code < code_size && !functions[h->pc / SFI_PART - code / SFI_PART](h))
            ;
        if (h->left == 0)
            return SFI_NEXT;
        const int how = sfi_step(s, h, at);
        if (how != SFI_NEXT)
            return how;
    }
}
#define SANDBOX(...) SFI_SANDBOX(__VA_ARGS__, 0)
#define SANDBOX_SINGLE(...) SFI_SANDBOX(__VA_ARGS__, 1)
#define ENTRY(at)
#define HEAD(at)
#define END(at)
#define OP(...)
#define OPI(...)
#define LOAD(...)
#define STORE(...)
#define BRANCH(...)
#define BRANCH_FAR(...)
#define JAL(...)
#define JAL_FAR(...)
#define JALR(...)
#define LUI(...)
#define AUIPC(...)
#define FENCE(...)
#define ECALL(...)
#define EBREAK(...)
#define SFI_SANDBOX(s, unit, code, code_size, data, data_size, start, gates, init, single) \
    static const struct sfi_row *sfi_rows##s(void); static const struct sfi_native_gate sfi_gates##s[gates + 1] = {
#define GATE(address, service) { 0x##address##u, service },
#define DATA(s, ...) { 0, 0 } }; static const uint8_t sfi_first##s[] = { __VA_ARGS__ };
#define SFI_FUNCTION(s, first) sfi_f##s##_##first
#define FUNCTION(s, first) static sfi_function SFI_FUNCTION(s, first);
#define LAST
#include SFI_TEXT
#undef SFI_SANDBOX
#undef GATE
#undef DATA
#undef FUNCTION
#undef LAST
#define SFI_SANDBOX(s, unit, code, code_size, data, data_size, start, gates, init, single) static sfi_function *const sfi_functions##s[] = {
#define GATE(address, service)
#define DATA(...)
#define FUNCTION(s, first) SFI_FUNCTION(s, first),
#define LAST };
#include SFI_TEXT
#undef SFI_SANDBOX
#undef FUNCTION
#undef LAST
#define SFI_SANDBOX(s, unit, code, code_size, data, data_size, start, gates, init, single) { unit, 0x##code##u, code_size, \
    0x##data##u, data_size, 0x##start##u, gates, init, sfi_gates##s, sfi_first##s, sfi_rows##s, sfi_functions##s, single },
#define FUNCTION(s, first)
#define LAST
static const struct sfi_sandbox sfi_sandboxes[] = {
#include SFI_TEXT
};
enum { SFI_SANDBOXES = sizeof sfi_sandboxes / sizeof sfi_sandboxes[0] };
#undef SFI_SANDBOX
#undef LAST
#undef OP
#undef OPI
#undef LOAD
#undef STORE
#undef BRANCH
#undef BRANCH_FAR
#undef JAL
#undef JAL_FAR
#undef JALR
#undef LUI
#undef AUIPC
#undef FENCE
#undef ECALL
#undef EBREAK
#define SFI_SANDBOX(s, unit, code, code_size, data, data_size, start, gates, init, single) \
    static const struct sfi_row *sfi_rows##s(void) { enum { first_ = 0x##code##u / 2 }; \
        static const struct sfi_row rows_[code_size / 2] = {
#define LAST }; return rows_; }
#define SFI_ROW(at, size, kind, rd, rs1, rs2, number) [0x##at##u / 2 - first_] = { SFI_KIND_##kind, size, rd, rs1, rs2, number },
#define OP(at, size, kind, rd, rs1, rs2) SFI_ROW(at, size, kind, rd, rs1, rs2, 0)
#define OPI(at, size, kind, rd, rs1, number) SFI_ROW(at, size, kind, rd, rs1, 0, number)
#define LOAD(at, size, kind, rd, rs1, number) SFI_ROW(at, size, kind, rd, rs1, 0, number)
#define STORE(at, size, kind, rs1, rs2, number) SFI_ROW(at, size, kind, 0, rs1, rs2, number)
#define BRANCH(at, size, kind, rs1, rs2, to) SFI_ROW(at, size, kind, 0, rs1, rs2, (sfi_i32)0x##to##u)
#define BRANCH_FAR(at, size, kind, rs1, rs2, to) SFI_ROW(at, size, kind, 0, rs1, rs2, (sfi_i32)0x##to##u)
#define JAL(at, size, rd, to) SFI_ROW(at, size, jal, rd, 0, 0, (sfi_i32)0x##to##u)
#define JAL_FAR(at, size, rd, to) SFI_ROW(at, size, jal, rd, 0, 0, (sfi_i32)0x##to##u)
#define JALR(at, size, rd, rs1, number) SFI_ROW(at, size, jalr, rd, rs1, 0, number)
#define LUI(at, size, rd, number) SFI_ROW(at, size, lui, rd, 0, 0, number)
#define AUIPC(at, size, rd, number) SFI_ROW(at, size, auipc, rd, 0, 0, number)
#define FENCE(at, size) SFI_ROW(at, size, fence, 0, 0, 0, 0)
#define ECALL(at, size) SFI_ROW(at, size, ecall, 0, 0, 0, 0)
#define EBREAK(at, size) SFI_ROW(at, size, ebreak, 0, 0, 0, 0)
#include SFI_TEXT
#undef SFI_SANDBOX
#undef FUNCTION
#undef ENTRY
#undef HEAD
#undef END
#undef LAST
#undef OP
#undef OPI
#undef LOAD
#undef STORE
#undef BRANCH
#undef BRANCH_FAR
#undef JAL
#undef JAL_FAR
#undef JALR
#undef LUI
#undef AUIPC
#undef FENCE
#undef ECALL
#undef EBREAK
#define SFI_REGISTERS(X) X(3) X(8) X(10) X(11) X(12) X(13) X(14) X(15) X(29) X(31)
#define SFI_GET(k) r##k = h->x[k],
#define SFI_PUT(k) h->x[k] = r##k;
#define r1 h->x[1]
#define r2 h->x[2]
#define r4 h->x[4]
#define r5 h->x[5]
#define r6 h->x[6]
#define r7 h->x[7]
#define r9 h->x[9]
#define r16 h->x[16]
#define r17 h->x[17]
#define r18 h->x[18]
#define r19 h->x[19]
#define r20 h->x[20]
#define r21 h->x[21]
#define r22 h->x[22]
#define r23 h->x[23]
#define r28 h->x[28]
#define r30 h->x[30]
#define SFI_IS_FIXED(k) ((k) == 0 || ((k) >= 24 && (k) <= 27 && !(single_ && (k) == 26)))
#define W(k, value) r##k = SFI_IS_FIXED(k) ? r##k : (value);
#define SFI_SANDBOX(s, unit, code, code_size, data, data_size, start, gates, init, single) \
    enum { sfi_unit##s = unit, sfi_single##s = single }; static const sfi_u32 \
    sfi_code##s = 0x##code##u, sfi_code_size##s = code_size, sfi_data##s = 0x##data##u, sfi_data_size##s = data_size;
#define SFI_QUARTER(place) ((sfi_u32)((place) - part_) / 4)
#define SFI_TURNED(place) ((place) / unit_ | (place) << (unit_ == 4 ? 30 : 28))
#define FUNCTION(s, first) static int SFI_FUNCTION(s, first)(struct sfi_hart *restrict const h) { \
    enum { unit_ = sfi_unit##s, single_ = sfi_single##s }; \
    const sfi_u32 part_ = 0x##first##u / SFI_PART * SFI_PART, code_ = sfi_code##s, code_size_ = sfi_code_size##s, \
        data_ = sfi_data##s, data_size_ = sfi_data_size##s; \
    sfi_u32 r0 = 0, r24 = code_, r25 = code_size_ - unit_, r26 = single_ ? h->x[26] : data_, \
        r27 = data_size_ - 1 + (single_ ? data_ : 0), SFI_REGISTERS(SFI_GET) pc_ = h->pc; \
    uint64_t sum_ = (uint64_t)h->left + SFI_QUARTER(pc_); uint8_t *const mem_ = h->data; int how_ = 0; \
    (void)r0; (void)r24; (void)r25; (void)r26; (void)r27; (void)mem_; \
    enter: switch (SFI_TURNED(pc_ - part_)) { default: if (pc_ % unit_ || pc_ - part_ < SFI_PART) goto slow; goto out;
#define SFI_CLOSE } slow: how_ = 1; out: SFI_REGISTERS(SFI_PUT) if (single_) h->x[26] = r26; h->pc = pc_; \
    h->left = (sfi_u32)(sum_ - SFI_QUARTER(pc_)); return how_; }
#define END(at) pc_ = 0x##at##u; goto out; SFI_CLOSE
#define LAST pc_ = code_ + code_size_; goto out; SFI_CLOSE
#define ENTRY(at) case 0x##at##u % SFI_PART / unit_:
#define SFI_GO goto enter;
#define SFI_SLOWLY(at) { pc_ = 0x##at##u; goto slow; }
#define SFI_IS_SHORT(place) SFI_RARE(sum_ < SFI_QUARTER(place) + SFI_MOST)
#define SFI_DONE(at, size) sum_ -= 1 - (SFI_QUARTER(0x##at##u + size) - SFI_QUARTER(0x##at##u));
#define SFI_MOVE(from, to) sum_ += (uint64_t)SFI_QUARTER(to) - SFI_QUARTER(from);
#define HEAD(at) if (SFI_IS_SHORT(0x##at##u)) SFI_SLOWLY(at)
#define SFI_JUMP(at, size, to) { SFI_MOVE(0x##at##u + size, 0x##to##u) \
    if ((0x##to##u <= 0x##at##u || (0x##to##u ^ 0x##at##u) >= SFI_HEAD) && SFI_IS_SHORT(0x##to##u)) SFI_SLOWLY(to) goto L##to; }
#define SFI_LEAVE(at, size, to) { SFI_MOVE(0x##at##u + size, 0x##to##u) pc_ = 0x##to##u; goto out; }
#define SFI_IS_BASE(kind, rs2) (SFI_KIND_##kind == SFI_KIND_or && SFI_IS_FIXED(rs2))
#define OP(at, size, kind, rd, rs1, rs2) \
    L##at: W(rd, SFI_IS_BASE(kind, rs2) ? (r##rs1 & ~r##rs2) + r##rs2 : SFI_##kind(r##rs1, r##rs2)) SFI_DONE(at, size)
#define OPI(at, size, kind, rd, rs1, number) L##at: W(rd, SFI_##kind(r##rs1, (sfi_u32)(number))) SFI_DONE(at, size)
#define SFI_PLACE(at, rs1, number, type) const sfi_u32 e_ = r##rs1 + (sfi_u32)(number) - data_; \
    if (SFI_RARE(e_ > data_size_ - sizeof(type))) SFI_SLOWLY(at)
#define LOAD(at, size, kind, rd, rs1, number) L##at: { sfi_##kind v_; SFI_PLACE(at, rs1, number, v_) \
    memcpy(&v_, mem_ + e_, sizeof v_); W(rd, (sfi_u32)(sfi_i32)v_) SFI_DONE(at, size) }
#define STORE(at, size, kind, rs1, rs2, number) L##at: { const sfi_##kind v_ = (sfi_##kind)r##rs2; SFI_PLACE(at, rs1, number, v_) \
    memcpy(mem_ + e_, &v_, sizeof v_); SFI_DONE(at, size) }
#define BRANCH(at, size, kind, rs1, rs2, to) L##at: SFI_DONE(at, size) if (SFI_##kind(r##rs1, r##rs2)) SFI_JUMP(at, size, to)
#define BRANCH_FAR(at, size, kind, rs1, rs2, to) L##at: SFI_DONE(at, size) if (SFI_##kind(r##rs1, r##rs2)) SFI_LEAVE(at, size, to)
#define JAL(at, size, rd, to) L##at: W(rd, 0x##at##u + size) SFI_DONE(at, size) SFI_JUMP(at, size, to)
#define JAL_FAR(at, size, rd, to) L##at: W(rd, 0x##at##u + size) SFI_DONE(at, size) SFI_LEAVE(at, size, to)
#define JALR(at, size, rd, rs1, number) L##at: pc_ = (r##rs1 + (sfi_u32)(number)) & ~1u; W(rd, 0x##at##u + size) SFI_DONE(at, size) { \
    const int is_short_ = SFI_IS_SHORT(0x##at##u + size); SFI_MOVE(0x##at##u + size, pc_) if (is_short_) goto slow; } SFI_GO
#define LUI(at, size, rd, number) L##at: W(rd, (sfi_u32)(number) << 12) SFI_DONE(at, size)
#define AUIPC(at, size, rd, number) L##at: W(rd, 0x##at##u + ((sfi_u32)(number) << 12)) SFI_DONE(at, size)
#define FENCE(at, size) L##at: SFI_DONE(at, size)
#define ECALL(at, size) L##at: SFI_SLOWLY(at)
#define EBREAK(at, size) L##at: SFI_SLOWLY(at)
#if defined(__GNUC__) && !defined(__clang__)
#pragma GCC push_options
#pragma GCC optimize("no-ivopts", "no-tree-slp-vectorize")
#include SFI_TEXT
#pragma GCC pop_options
#else
#include SFI_TEXT
#endif
#endif
#endif
#ifndef SFI_SERVICES_H
#define SFI_SERVICES_H
#include <stdbool.h>
#include <stddef.h>
#include <stdint.h>
enum sfi_service { SFI_EXIT_SERVICE, SFI_PUT_SERVICE, SFI_GET_SERVICE, SFI_YIELD_SERVICE, SFI_POST_SERVICE, SFI_TAKE_SERVICE,
                   SFI_SERVICES };
enum { SFI_HANDED_MOST = 65536, SFI_OUTPUT_MOST = 1048576, SFI_MAILBOX_MOST = 16 };
static const uint32_t SFI_CALL_REFUSED = UINT32_MAX;
struct sfi_message {
    uint32_t word, sender;
};
struct sfi_session {
    uint8_t *output;
    size_t written, taken;
    uint32_t waiting;
    struct sfi_message mailbox[SFI_MAILBOX_MOST];
};
struct sfi_console {
    const uint8_t *input;
    size_t input_length, output_most;
    uint32_t count;
    struct sfi_session *sessions;
};
struct sfi_console_call {
    uint32_t caller, service, a0, a1;
    uint8_t *data;
    uint32_t data_base, data_size;
};
static inline bool sfi_may_hand(const struct sfi_console_call *call) {
    const uint32_t offset = call->a0 - call->data_base, count = call->a1;
    return count <= SFI_HANDED_MOST && (count == 0 || (offset < call->data_size && count <= call->data_size - offset));
}
static inline bool sfi_may_put(const struct sfi_console *console, const struct sfi_console_call *call) {
    return sfi_may_hand(call) && call->a1 <= console->output_most - console->sessions[call->caller].written;
}
static inline uint32_t sfi_put(struct sfi_console *console, const struct sfi_console_call *call) {
    struct sfi_session *own = &console->sessions[call->caller];
    if (!sfi_may_put(console, call))
        return SFI_CALL_REFUSED;
    if (call->a1)
        memcpy(own->output + own->written, call->data + (call->a0 - call->data_base), call->a1);
    own->written += call->a1;
    return call->a1;
}
static inline uint32_t sfi_get(struct sfi_console *console, const struct sfi_console_call *call) {
    struct sfi_session *own = &console->sessions[call->caller];
    const size_t left = console->input_length - own->taken;
    const uint32_t count = call->a1 < left ? call->a1 : (uint32_t)left;
    if (!sfi_may_hand(call))
        return SFI_CALL_REFUSED;
    if (count)
        memcpy(call->data + (call->a0 - call->data_base), console->input + own->taken, count);
    own->taken += count;
    return count;
}
static inline uint32_t sfi_post(struct sfi_console *console, const struct sfi_console_call *call) {
    if (call->a0 >= console->count)
        return SFI_CALL_REFUSED;
    struct sfi_session *to = &console->sessions[call->a0];
    if (to->waiting == SFI_MAILBOX_MOST)
        return 1;
    to->mailbox[to->waiting].word = call->a1;
    to->mailbox[to->waiting++].sender = call->caller;
    return 0;
}
static inline void sfi_take(struct sfi_session *own, struct sfi_console_call *call) {
    call->a0 = call->a1 = 0;
    if (own->waiting == 0)
        return;
    call->a0 = own->mailbox[0].word;
    call->a1 = own->mailbox[0].sender + 1;
    own->waiting--;
    for (uint32_t k = 0; k < own->waiting; k++)
        own->mailbox[k] = own->mailbox[k + 1];
}
static inline void sfi_console_reply(struct sfi_console *console, struct sfi_console_call *call) {
    if (call->caller >= console->count)
        call->a0 = SFI_CALL_REFUSED;
    else if (call->service == SFI_PUT_SERVICE)
        call->a0 = sfi_put(console, call);
    else if (call->service == SFI_GET_SERVICE)
        call->a0 = sfi_get(console, call);
    else if (call->service == SFI_POST_SERVICE)
        call->a0 = sfi_post(console, call);
    else if (call->service == SFI_TAKE_SERVICE)
        sfi_take(&console->sessions[call->caller], call);
    else
        call->a0 = SFI_CALL_REFUSED;
}
#endif
static const char *const CAUSES[] = { "", "", "Load", "Store", "Break", "Fetch" };
struct running {
    struct sfi_hart hart;
    int is_ready;
    char state[32];
    uint64_t steps;
};
static struct running running[SFI_SANDBOXES];
static struct sfi_session sessions[SFI_SANDBOXES];
static struct sfi_console console = { NULL, 0, SFI_OUTPUT_MOST, SFI_SANDBOXES, sessions };
static int answer(sfi_u32 number, const struct sfi_sandbox *s, sfi_u32 service) {
    struct running *it = &running[number];
    sfi_u32 *const a = it->hart.x + 10;
    struct sfi_console_call call = { number, service, a[0], a[1], it->hart.data, s->data, s->data_size };
    it->hart.left--;
    if (service == SFI_EXIT_SERVICE) {
        sprintf(it->state, "exit=%u", (unsigned)a[0]);
        return it->is_ready = 0;
    }
    it->hart.pc += 4;
    if (service == SFI_YIELD_SERVICE)
        return 0;
    sfi_console_reply(&console, &call);
    a[0] = call.a0;
    a[1] = call.a1;
    return 1;
}
static void take_turn(sfi_u32 number, sfi_u32 quantum) {
    const struct sfi_sandbox *s = &sfi_sandboxes[number];
    struct running *it = &running[number];
    sfi_u32 at = 0, service = 0;
    int how;
    it->hart.left = quantum;
    while ((how = sfi_turn(s, &it->hart, &at)) == SFI_CALL) {
        for (sfi_u32 k = 0; k < s->gates; k++)
            if (s->gate[k].address == it->hart.pc)
                service = s->gate[k].service;
        if (!answer(number, s, service))
            break;
    }
    if (how != SFI_NEXT && how != SFI_CALL) {
        sprintf(it->state, "trap=%s at=%08x", CAUSES[how], (unsigned)at);
        it->is_ready = 0;
    }
    it->steps += quantum - it->hart.left;
}
static void begin(sfi_u32 number) {
    const struct sfi_sandbox *s = &sfi_sandboxes[number];
    struct running *it = &running[number];
    strcpy(it->state, "ready");
    it->is_ready = 1;
    it->hart.data = calloc(1, s->data_size);
    sessions[number].output = malloc(SFI_OUTPUT_MOST);
    if (it->hart.data == NULL || sessions[number].output == NULL)
        exit(4);
    memcpy(it->hart.data, s->first_data, s->init);
    sfi_begin(s, &it->hart, s->start);
}
static void usage(void) {
    fprintf(stderr, "options: --rounds N (1 to 10000), --quantum Q (1 to 1000000), --input HEX\n");
    exit(3);
}
static sfi_u32 number_of(const char *digits, unsigned long most) {
    char *end;
    const unsigned long number = strtoul(digits, &end, 10);
    if (*digits < '0' || *digits > '9' || *end != 0 || number < 1 || number > most)
        usage();
    return (sfi_u32)number;
}
static void read_input(const char *digits) {
    const size_t count = strlen(digits);
    uint8_t *input = malloc(count / 2 + 1);
    unsigned byte;
    if (count % 2 != 0 || strspn(digits, "0123456789abcdefABCDEF") != count) {
        fprintf(stderr, "--input takes pairs of hexadecimal digits\n");
        exit(2);
    }
    if (input == NULL)
        exit(4);
    console.input = input;
    for (; sscanf(digits, "%2x", &byte) == 1; digits += 2)
        input[console.input_length++] = (uint8_t)byte;
}
int main(int count, char **words) {
    sfi_u32 rounds = 1, quantum = 1000;
    for (int k = 1; k < count; k += 2) {
        if (k + 1 == count)
            usage();
        if (strcmp(words[k], "--rounds") == 0)
            rounds = number_of(words[k + 1], 10000);
        else if (strcmp(words[k], "--quantum") == 0)
            quantum = number_of(words[k + 1], 1000000);
        else if (strcmp(words[k], "--input") == 0)
            read_input(words[k + 1]);
        else
            usage();
    }
    for (sfi_u32 number = 0; number < SFI_SANDBOXES; number++)
        begin(number);
    for (; rounds; rounds--)
        for (sfi_u32 number = 0; number < SFI_SANDBOXES; number++)
            if (running[number].is_ready)
                take_turn(number, quantum);
    for (sfi_u32 number = 0; number < SFI_SANDBOXES; number++) {
        const struct running *it = &running[number];
        printf("sandbox=%u %s steps=%llu out=", (unsigned)number, it->state, (unsigned long long)it->steps);
        for (size_t k = 0; k < sessions[number].written; k++)
            printf("%02x", sessions[number].output[k]);
        printf("\n");
        free(it->hart.data);
    }
    return 0;
}
#else
"#;
