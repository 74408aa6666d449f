// The year file mended, for C and Rust.
ghost use Rattle.std.specs.Prelude.{◌≡◌};
ghost use Rattle.ukhtvaresh.specs.MendReply.{mend_given, mend_reply, sheets_after, dropped_after};

// Mends a file of sheets: those kept in the one buffer, each unbroken stretch of dropped bytes, 16 bytes each, in the
// other; kept, noted: how many bytes each buffer has of them.
#[unsafe(no_mangle)]
pub extern "C" fn ukhtvaresh_mend(
    file: &[u8],
    sheets: &mut [u8],
    dropped: &mut [u8],
    kept: &mut u64,
    noted: &mut u64,
) -> u64
    ensures number { result ≡ (mend_reply (mend_given file.now sheets.old dropped.old)).number }
    ensures kept { kept.new ≡ (mend_reply (mend_given file.now sheets.old dropped.old)).kept }
    ensures noted { noted.new ≡ (mend_reply (mend_given file.now sheets.old dropped.old)).noted }
    ensures sheets { sheets.new ≡ sheets_after file.now sheets.old dropped.old }
    ensures dropped { dropped.new ≡ dropped_after file.now sheets.old dropped.old }
{
    ukhtvaresh::sheets::mend::ukhtvaresh_mend(file, sheets, dropped, kept, noted)
}
