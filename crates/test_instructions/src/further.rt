//! Further sections of a small file.

use crate::tables::push_words;
use std::alloc::AllocError;

/// What a further section holds.
#[derive(Clone, Copy)]
pub(crate) enum Further {
    /// Declared tables: the jump, the first entry, what is added to an entry, the number of entries
    /// and the size of one.
    Declares(&'static [[u32; 5]]),
    /// Attributes that name the extensions `zba` and `zbb`.
    Names,
    /// Attributes that name the words of a vendor.
    NamesVendor,
}

/// The attributes: rv64i2p1_zba1p0_zbb1p0.
const ATTRIBUTES: [u32; 10] = [
    0x00002741, 0x73697200, 0x01007663, 0x0000001D, 0x36767205, 0x70326934, 0x627A5F31, 0x30703161,
    0x62627A5F, 0x00307031,
];

/// The attributes: rv64i2p1_xtheadmemidx1.
const VENDOR: [u32; 10] = [
    0x00002741, 0x73697200, 0x01007663, 0x0000001D, 0x36767205, 0x70326934, 0x74785F31, 0x64616568,
    0x696D656D, 0x00317864,
];

/// A small number, as a field of a file.
pub(crate) fn counted(count: usize) -> u32 {
    u32::try_from(count).unwrap_or(0)
}

impl Further {
    /// The type of the section.
    fn kind(self) -> u32 {
        match self {
            Further::Declares(_) => 0x8CF6_0001,
            Further::Names | Further::NamesVendor => 0x7000_0003,
        }
    }

    /// The size of the section in bytes.
    fn size(self) -> u32 {
        match self {
            Further::Declares(records) => counted(records.len()).wrapping_mul(32),
            Further::Names | Further::NamesVendor => 40,
        }
    }

    fn push(self, bytes: &mut Vec<u8>) -> Result<(), AllocError> {
        match self {
            Further::Declares(records) => {
                for [jump, base, add, count, size] in records {
                    push_words(bytes, &[*jump, 0, *base, 0, *add, 0, *count, *size])?;
                }
                Ok(())
            }
            Further::Names => push_words(bytes, &ATTRIBUTES),
            Further::NamesVendor => push_words(bytes, &VENDOR),
        }
    }
}

/// Their headers, and then what they hold.
pub(crate) fn push_further(bytes: &mut Vec<u8>, further: &[Further]) -> Result<(), AllocError> {
    let headers = counted(further.len()).wrapping_mul(64);
    let mut offset = counted(bytes.len()).wrapping_add(headers);
    for section in further {
        let size = section.size();
        let header = [
            0,
            section.kind(),
            0,
            0,
            0,
            0,
            offset,
            0,
            size,
            0,
            0,
            0,
            0,
            0,
            0,
            0,
        ];
        push_words(bytes, &header)?;
        offset = offset.wrapping_add(size);
    }
    for section in further {
        section.push(bytes)?;
    }
    Ok(())
}
