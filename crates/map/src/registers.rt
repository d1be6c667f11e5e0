// The address of every register of the LM94, by its name in source document 000 (section 6.4.2).
pub const XOR_TEST: u8 = 0x00;

pub const SMBUS_TEST: u8 = 0x01;

pub const TRANSISTOR_MODE_SELECT: u8 = 0x05;

pub const ZONE_1B_TEMP: u8 = 0x06;

pub const ZONE_2B_TEMP: u8 = 0x07;

pub const ZONE_1B_FILTERED_TEMP: u8 = 0x08;

pub const ZONE_2B_FILTERED_TEMP: u8 = 0x09;

pub const PWM1_DUTY_CYCLE_VALUE: u8 = 0x0A;

pub const PWM2_DUTY_CYCLE_VALUE: u8 = 0x0B;

pub const PWM1_OVERRIDE_LOW: u8 = 0x0C;

pub const PWM1_OVERRIDE_HIGH: u8 = 0x0D;

pub const PWM2_OVERRIDE_LOW: u8 = 0x0E;

pub const PWM2_OVERRIDE_HIGH: u8 = 0x0F;

pub const Z1A_LSB: u8 = 0x10;

pub const Z1A_MSB: u8 = 0x11;

pub const Z1B_LSB: u8 = 0x12;

pub const Z1B_MSB: u8 = 0x13;

pub const Z2A_LSB: u8 = 0x14;

pub const Z2A_MSB: u8 = 0x15;

pub const Z2B_LSB: u8 = 0x16;

pub const Z2B_MSB: u8 = 0x17;

pub const Z1A_F_LSB: u8 = 0x18;

pub const Z1A_F_MSB: u8 = 0x19;

pub const Z1B_F_LSB: u8 = 0x1A;

pub const Z1B_F_MSB: u8 = 0x1B;

pub const Z2A_F_LSB: u8 = 0x1C;

pub const Z2A_F_MSB: u8 = 0x1D;

pub const Z2B_F_LSB: u8 = 0x1E;

pub const Z2B_F_MSB: u8 = 0x1F;

pub const Z3_LSB: u8 = 0x20;

pub const Z3_MSB: u8 = 0x21;

pub const Z4_LSB: u8 = 0x22;

pub const Z4_MSB: u8 = 0x23;

pub const TEMPERATURE_SOURCE_SELECT: u8 = 0x31;

pub const PWM_FILTER_SETTINGS: u8 = 0x32;

pub const PWM1_FILTER_SHUTOFF: u8 = 0x33;

pub const PWM2_FILTER_SHUTOFF: u8 = 0x34;

pub const FAN_CONTROL_BINDINGS: u8 = 0x35;

pub const PI_MIN_PWM_AND_HYSTERESIS: u8 = 0x36;

pub const ZONE_1_TCONTROL: u8 = 0x37;

pub const ZONE_2_TCONTROL: u8 = 0x38;

pub const ZONE_1_TOFF: u8 = 0x39;

pub const ZONE_2_TOFF: u8 = 0x3A;

pub const P_COEFFICIENT: u8 = 0x3B;

pub const I_COEFFICIENT: u8 = 0x3C;

pub const PI_EXPONENTS: u8 = 0x3D;

pub const MANUFACTURER_ID: u8 = 0x3E;

pub const VERSION_STEPPING: u8 = 0x3F;

pub const B_ERROR_STATUS_1: u8 = 0x40;

pub const B_ERROR_STATUS_2: u8 = 0x41;

pub const B_ERROR_STATUS_3: u8 = 0x42;

pub const B_ERROR_STATUS_4: u8 = 0x43;

pub const B_P1_PROCHOT_ERROR_STATUS: u8 = 0x44;

pub const B_P2_PROCHOT_ERROR_STATUS: u8 = 0x45;

pub const B_GPI_ERROR_STATUS: u8 = 0x46;

pub const B_FAN_ERROR_STATUS: u8 = 0x47;

pub const H_ERROR_STATUS_1: u8 = 0x48;

pub const H_ERROR_STATUS_2: u8 = 0x49;

pub const H_ERROR_STATUS_3: u8 = 0x4A;

pub const H_ERROR_STATUS_4: u8 = 0x4B;

pub const H_P1_PROCHOT_ERROR_STATUS: u8 = 0x4C;

pub const H_P2_PROCHOT_ERROR_STATUS: u8 = 0x4D;

pub const H_GPI_ERROR_STATUS: u8 = 0x4E;

pub const H_FAN_ERROR_STATUS: u8 = 0x4F;

pub const ZONE_1A_TEMP: u8 = 0x50;

pub const ZONE_2A_TEMP: u8 = 0x51;

pub const ZONE_3_TEMP: u8 = 0x52;

pub const ZONE_4_TEMP: u8 = 0x53;

pub const ZONE_1A_FILTERED_TEMP: u8 = 0x54;

pub const ZONE_2A_FILTERED_TEMP: u8 = 0x55;

pub const AD_IN1_VOLTAGE: u8 = 0x56;

pub const AD_IN2_VOLTAGE: u8 = 0x57;

pub const AD_IN3_VOLTAGE: u8 = 0x58;

pub const AD_IN4_VOLTAGE: u8 = 0x59;

pub const AD_IN5_VOLTAGE: u8 = 0x5A;

pub const AD_IN6_VOLTAGE: u8 = 0x5B;

pub const AD_IN7_VOLTAGE: u8 = 0x5C;

pub const AD_IN8_VOLTAGE: u8 = 0x5D;

pub const AD_IN9_VOLTAGE: u8 = 0x5E;

pub const AD_IN10_VOLTAGE: u8 = 0x5F;

pub const AD_IN11_VOLTAGE: u8 = 0x60;

pub const AD_IN12_VOLTAGE: u8 = 0x61;

pub const AD_IN13_VOLTAGE: u8 = 0x62;

pub const AD_IN14_VOLTAGE: u8 = 0x63;

pub const AD_IN15_VOLTAGE: u8 = 0x64;

pub const AD_IN16_VOLTAGE: u8 = 0x65;

pub const CURRENT_P1_PROCHOT: u8 = 0x67;

pub const AVERAGE_P1_PROCHOT: u8 = 0x68;

pub const CURRENT_P2_PROCHOT: u8 = 0x69;

pub const AVERAGE_P2_PROCHOT: u8 = 0x6A;

pub const GPI_STATE: u8 = 0x6B;

pub const P1_VID: u8 = 0x6C;

pub const P2_VID: u8 = 0x6D;

pub const FAN_TACH_1_LSB: u8 = 0x6E;

pub const FAN_TACH_1_MSB: u8 = 0x6F;

pub const FAN_TACH_2_LSB: u8 = 0x70;

pub const FAN_TACH_2_MSB: u8 = 0x71;

pub const FAN_TACH_3_LSB: u8 = 0x72;

pub const FAN_TACH_3_MSB: u8 = 0x73;

pub const FAN_TACH_4_LSB: u8 = 0x74;

pub const FAN_TACH_4_MSB: u8 = 0x75;

pub const ZONE_1_LOW_TEMP: u8 = 0x78;

pub const ZONE_1_HIGH_TEMP: u8 = 0x79;

pub const ZONE_2_LOW_TEMP: u8 = 0x7A;

pub const ZONE_2_HIGH_TEMP: u8 = 0x7B;

pub const ZONE_3_LOW_TEMP: u8 = 0x7C;

pub const ZONE_3_HIGH_TEMP: u8 = 0x7D;

pub const ZONE_4_LOW_TEMP: u8 = 0x7E;

pub const ZONE_4_HIGH_TEMP: u8 = 0x7F;

pub const FAN_BOOST_TEMP_ZONE_1: u8 = 0x80;

pub const FAN_BOOST_TEMP_ZONE_2: u8 = 0x81;

pub const FAN_BOOST_TEMP_ZONE_3: u8 = 0x82;

pub const FAN_BOOST_TEMP_ZONE_4: u8 = 0x83;

pub const ZONE_1_2_HYSTERESIS: u8 = 0x84;

pub const ZONE_3_4_HYSTERESIS: u8 = 0x85;

pub const ZONE_1B_TEMP_ADJUST: u8 = 0x8E;

pub const ZONE_2B_TEMP_ADJUST: u8 = 0x8F;

pub const AD_IN1_LOW_LIMIT: u8 = 0x90;

pub const AD_IN1_HIGH_LIMIT: u8 = 0x91;

pub const AD_IN2_LOW_LIMIT: u8 = 0x92;

pub const AD_IN2_HIGH_LIMIT: u8 = 0x93;

pub const AD_IN3_LOW_LIMIT: u8 = 0x94;

pub const AD_IN3_HIGH_LIMIT: u8 = 0x95;

pub const AD_IN4_LOW_LIMIT: u8 = 0x96;

pub const AD_IN4_HIGH_LIMIT: u8 = 0x97;

pub const AD_IN5_LOW_LIMIT: u8 = 0x98;

pub const AD_IN5_HIGH_LIMIT: u8 = 0x99;

pub const AD_IN6_LOW_LIMIT: u8 = 0x9A;

pub const AD_IN6_HIGH_LIMIT: u8 = 0x9B;

pub const AD_IN7_LOW_LIMIT: u8 = 0x9C;

pub const AD_IN7_HIGH_LIMIT: u8 = 0x9D;

pub const AD_IN8_LOW_LIMIT: u8 = 0x9E;

pub const AD_IN8_HIGH_LIMIT: u8 = 0x9F;

pub const AD_IN9_LOW_LIMIT: u8 = 0xA0;

pub const AD_IN9_HIGH_LIMIT: u8 = 0xA1;

pub const AD_IN10_LOW_LIMIT: u8 = 0xA2;

pub const AD_IN10_HIGH_LIMIT: u8 = 0xA3;

pub const AD_IN11_LOW_LIMIT: u8 = 0xA4;

pub const AD_IN11_HIGH_LIMIT: u8 = 0xA5;

pub const AD_IN12_LOW_LIMIT: u8 = 0xA6;

pub const AD_IN12_HIGH_LIMIT: u8 = 0xA7;

pub const AD_IN13_LOW_LIMIT: u8 = 0xA8;

pub const AD_IN13_HIGH_LIMIT: u8 = 0xA9;

pub const AD_IN14_LOW_LIMIT: u8 = 0xAA;

pub const AD_IN14_HIGH_LIMIT: u8 = 0xAB;

pub const AD_IN15_LOW_LIMIT: u8 = 0xAC;

pub const AD_IN15_HIGH_LIMIT: u8 = 0xAD;

pub const AD_IN16_LOW_LIMIT: u8 = 0xAE;

pub const AD_IN16_HIGH_LIMIT: u8 = 0xAF;

pub const P1_PROCHOT_USER_LIMIT: u8 = 0xB0;

pub const P2_PROCHOT_USER_LIMIT: u8 = 0xB1;

pub const VCCP1_LIMIT_OFFSETS: u8 = 0xB2;

pub const VCCP2_LIMIT_OFFSETS: u8 = 0xB3;

pub const FAN_TACH_1_LIMIT_LSB: u8 = 0xB4;

pub const FAN_TACH_1_LIMIT_MSB: u8 = 0xB5;

pub const FAN_TACH_2_LIMIT_LSB: u8 = 0xB6;

pub const FAN_TACH_2_LIMIT_MSB: u8 = 0xB7;

pub const FAN_TACH_3_LIMIT_LSB: u8 = 0xB8;

pub const FAN_TACH_3_LIMIT_MSB: u8 = 0xB9;

pub const FAN_TACH_4_LIMIT_LSB: u8 = 0xBA;

pub const FAN_TACH_4_LIMIT_MSB: u8 = 0xBB;

pub const SPECIAL_FUNCTION_CONTROL_1: u8 = 0xBC;

pub const SPECIAL_FUNCTION_CONTROL_2: u8 = 0xBD;

pub const GPI_VID_LEVEL_CONTROL: u8 = 0xBE;

pub const PWM_RAMP_CONTROL: u8 = 0xBF;

pub const FAN_BOOST_HYSTERESIS_1_2: u8 = 0xC0;

pub const FAN_BOOST_HYSTERESIS_3_4: u8 = 0xC1;

pub const SPIKE_SMOOTHING_CONTROL: u8 = 0xC2;

pub const LUT_1_2_MIN_PWM_AND_HYSTERESIS: u8 = 0xC3;

pub const LUT_3_4_MIN_PWM_AND_HYSTERESIS: u8 = 0xC4;

pub const GPO: u8 = 0xC5;

pub const PROCHOT_CONTROL: u8 = 0xC6;

pub const PROCHOT_TIME_INTERVAL: u8 = 0xC7;

pub const PWM1_CONTROL_1: u8 = 0xC8;

pub const PWM1_CONTROL_2: u8 = 0xC9;

pub const PWM1_CONTROL_3: u8 = 0xCA;

pub const PWM1_CONTROL_4: u8 = 0xCB;

pub const PWM2_CONTROL_1: u8 = 0xCC;

pub const PWM2_CONTROL_2: u8 = 0xCD;

pub const PWM2_CONTROL_3: u8 = 0xCE;

pub const PWM2_CONTROL_4: u8 = 0xCF;

pub const LUT_1_BASE_TEMPERATURE: u8 = 0xD0;

pub const LUT_2_BASE_TEMPERATURE: u8 = 0xD1;

pub const LUT_3_BASE_TEMPERATURE: u8 = 0xD2;

pub const LUT_4_BASE_TEMPERATURE: u8 = 0xD3;

pub const STEP_2_TEMP_OFFSET: u8 = 0xD4;

pub const STEP_3_TEMP_OFFSET: u8 = 0xD5;

pub const STEP_4_TEMP_OFFSET: u8 = 0xD6;

pub const STEP_5_TEMP_OFFSET: u8 = 0xD7;

pub const STEP_6_TEMP_OFFSET: u8 = 0xD8;

pub const STEP_7_TEMP_OFFSET: u8 = 0xD9;

pub const STEP_8_TEMP_OFFSET: u8 = 0xDA;

pub const STEP_9_TEMP_OFFSET: u8 = 0xDB;

pub const STEP_10_TEMP_OFFSET: u8 = 0xDC;

pub const STEP_11_TEMP_OFFSET: u8 = 0xDD;

pub const STEP_12_TEMP_OFFSET: u8 = 0xDE;

pub const STEP_13_TEMP_OFFSET: u8 = 0xDF;

pub const TACH_TO_PWM_BINDING: u8 = 0xE0;

pub const TACH_BOOST_CONTROL: u8 = 0xE1;

pub const STATUS_CONTROL: u8 = 0xE2;

pub const CONFIGURATION: u8 = 0xE3;

pub const SLEEP_STATE_CONTROL: u8 = 0xE4;

pub const S1_GPI_MASK: u8 = 0xE5;

pub const S1_FAN_MASK: u8 = 0xE6;

pub const S3_GPI_MASK: u8 = 0xE7;

pub const S3_FAN_MASK: u8 = 0xE8;

pub const S3_TEMPERATURE_VOLTAGE_MASK: u8 = 0xE9;

pub const S4_5_GPI_MASK: u8 = 0xEA;

pub const S4_5_TEMPERATURE_VOLTAGE_MASK: u8 = 0xEB;

pub const GPI_ERROR_MASK: u8 = 0xEC;

pub const MISCELLANEOUS_ERROR_MASK: u8 = 0xED;

pub const ZONE_1A_TEMP_ADJUST: u8 = 0xEE;

pub const ZONE_2A_TEMP_ADJUST: u8 = 0xEF;
