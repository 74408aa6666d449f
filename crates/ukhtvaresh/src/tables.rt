// Values of hourly rows of Sun and Moon, elements made of them, and a cubic judged.
pub mod from_rows;
pub mod from_tables;
pub mod spreadsheet;
