// The built-in names: 157 types by code, then 79 functions by number, each a fixed byte string.
//
// All of them stand in one byte string, each with a space behind it, so that a name is a part of it that can be handed out. Whoever reads
// or writes a text takes the byte string and its index once and lends them on, since a constant is made anew wherever it is used.

ghost use Rattle.std.specs.Prelude.{◌≡◌};
ghost use Rattle.names.specs.Spelling.{built_in_names, spelling_in, start_in};

use crate::index::{STARTS, entry};
use functions::FUNCTION_COUNT;

// So many types have names: the codes of leaves.
pub const TYPE_COUNT: usize = 157;

// Types and functions.
pub const WORD_COUNT: usize = TYPE_COUNT + FUNCTION_COUNT as usize;

// The bytes of all names and of the space behind each.
pub const NAMES_LENGTH: usize = 2678;

const NAMES: [u8; NAMES_LENGTH] =
    *b"abstract-int abstract-float i32 i16 i64 u32 u16 u64 f32 f16 f64 bool vec2<abstract-int> vec2<abstract-float> vec2<i32> vec2<i16> vec2<i64> vec2<u32> vec2<u16> vec2<u64> vec2<f32> vec2<f16> vec2<f64> vec2<bool> vec3<abstract-int> vec3<abstract-float> vec3<i32> vec3<i16> vec3<i64> vec3<u32> vec3<u16> vec3<u64> vec3<f32> vec3<f16> vec3<f64> vec3<bool> vec4<abstract-int> vec4<abstract-float> vec4<i32> vec4<i16> vec4<i64> vec4<u32> vec4<u16> vec4<u64> vec4<f32> vec4<f16> vec4<f64> vec4<bool> mat2x2<abstract-int> mat2x2<abstract-float> mat2x2<i32> mat2x2<i16> mat2x2<i64> mat2x2<u32> mat2x2<u16> mat2x2<u64> mat2x2<f32> mat2x2<f16> mat2x2<f64> mat2x2<bool> mat2x3<abstract-int> mat2x3<abstract-float> mat2x3<i32> mat2x3<i16> mat2x3<i64> mat2x3<u32> mat2x3<u16> mat2x3<u64> mat2x3<f32> mat2x3<f16> mat2x3<f64> mat2x3<bool> mat2x4<abstract-int> mat2x4<abstract-float> mat2x4<i32> mat2x4<i16> mat2x4<i64> mat2x4<u32> mat2x4<u16> mat2x4<u64> mat2x4<f32> mat2x4<f16> mat2x4<f64> mat2x4<bool> mat3x2<abstract-int> mat3x2<abstract-float> mat3x2<i32> mat3x2<i16> mat3x2<i64> mat3x2<u32> mat3x2<u16> mat3x2<u64> mat3x2<f32> mat3x2<f16> mat3x2<f64> mat3x2<bool> mat3x3<abstract-int> mat3x3<abstract-float> mat3x3<i32> mat3x3<i16> mat3x3<i64> mat3x3<u32> mat3x3<u16> mat3x3<u64> mat3x3<f32> mat3x3<f16> mat3x3<f64> mat3x3<bool> mat3x4<abstract-int> mat3x4<abstract-float> mat3x4<i32> mat3x4<i16> mat3x4<i64> mat3x4<u32> mat3x4<u16> mat3x4<u64> mat3x4<f32> mat3x4<f16> mat3x4<f64> mat3x4<bool> mat4x2<abstract-int> mat4x2<abstract-float> mat4x2<i32> mat4x2<i16> mat4x2<i64> mat4x2<u32> mat4x2<u16> mat4x2<u64> mat4x2<f32> mat4x2<f16> mat4x2<f64> mat4x2<bool> mat4x3<abstract-int> mat4x3<abstract-float> mat4x3<i32> mat4x3<i16> mat4x3<i64> mat4x3<u32> mat4x3<u16> mat4x3<u64> mat4x3<f32> mat4x3<f16> mat4x3<f64> mat4x3<bool> mat4x4<abstract-int> mat4x4<abstract-float> mat4x4<i32> mat4x4<i16> mat4x4<i64> mat4x4<u32> mat4x4<u16> mat4x4<u64> mat4x4<f32> mat4x4<f16> mat4x4<f64> mat4x4<bool> other abs sign min max clamp sin cos tan asin acos atan sinh cosh tanh asinh acosh atanh saturate radians degrees ceil floor round fract trunc exp exp2 log log2 sqrt inverseSqrt atan2 pow step fma smoothStep countTrailingZeros countLeadingZeros countOneBits reverseBits firstTrailingBit firstLeadingBit pack4x8snorm pack4x8unorm pack2x16snorm pack2x16unorm pack2x16float pack4xI8 pack4xU8 pack4xI8Clamp pack4xU8Clamp unpack4x8snorm unpack4x8unorm unpack2x16snorm unpack2x16unorm unpack2x16float unpack4xI8 unpack4xU8 dot4I8Packed dot4U8Packed dot modf frexp ldexp outer cross distance length normalize faceForward reflect refract mix inverse transpose determinant quantizeToF16 extractBits insertBits ";

// The names of all types and functions, with a space behind each.
pub fn built_in_names() -> [u8; NAMES_LENGTH]
    ensures { result ≡ built_in_names }
{
    NAMES
}

// The name of a word in lent names with a lent index: of a type by its code, of a function by its number behind the types. Empty where
// the names have no such word.
pub fn spelling<'a>(names: &'a [u8], index: &[u8], word: usize) -> &'a [u8]
    ensures { result.now ≡ spelling_in names.now index.now word }
{
    if WORD_COUNT <= word {
        return &[];
    }
    let start = start_of(index, word);
    let behind = start_of(index, word + 1);
    if behind <= start || names.len() < behind {
        return &[];
    }
    &names[start..behind - 1]
}

// Where a word's name begins.
fn start_of(index: &[u8], word: usize) -> usize
    ensures { result ≡ start_in index.now word }
{
    if WORD_COUNT < word {
        return 0;
    }
    // Byte by byte, since an entry behind the index's end is 0.
    let low = STARTS + 2 * word;
    entry(index, low) + 256 * entry(index, low + 1)
}
